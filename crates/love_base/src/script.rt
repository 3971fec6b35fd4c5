ghost use Rattle.std.specs.Prelude.{◌≡◌, true};
ghost use Rattle.love_base.specs.Fault.{HasRisen};
ghost use Rattle.love_base.specs.Scripted.{after_call, fails_next, unused};

use std::marker::Model;

// Which calls fail, chosen beforehand by their numbers from 1.
#[derive(Debug, Drop)]
pub(crate) struct Script {
    fails: Vec<u64>,
    calls: u64,
    faults: u64,
}

impl Model for Script {
    ghost use Rattle.love_base.specs.Scripted.{Script as Chosen};

    ghost Value = { Chosen };

    ghost view = { λ script. record {
      fails = script.fails.items;
      calls = script.calls;
      faults = script.faults;
    } };
}

impl Script {
    pub(crate) fn new(fails: Vec<u64>) -> Script
        ensures { result ≡ unused fails.items }
    {
        Script {
            fails,
            calls: 0,
            faults: 0,
        }
    }

    // Counts a call, and says whether it fails.
    pub(crate) fn call_fails(&mut self) -> bool
        ensures answer { result ≡ fails_next self.old }
        ensures after { self.new ≡ after_call self.old }
        ensures risen { result ≡ true → HasRisen self.old.faults self.new.faults }
    {
        self.calls = self.calls.saturating_add(1);
        let fails = self.fails.contains(&self.calls);
        if fails {
            self.faults = self.faults.saturating_add(1);
        }
        fails
    }
}
