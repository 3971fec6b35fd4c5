//! A list of stamps of one of two kinds: an object that is its own history. Its summary is its
//! length.
ghost use Rattle.std.specs.Prelude.{◌≡◌, ◌==◌, ◌<◌, ◌^◌, [], length, true, if◌then◌else◌, refl};
ghost use Rattle.love_base.specs.Prefix.{IsPrefix};

use crate::Logged;
use love_base::Stamp;
use std::alloc::Global;
use std::marker::Model;

#[derive(Drop)]
pub(super) struct Stamps {
    items: Vec<Stamp>,
}

impl Model for Stamps {
    ghost use Rattle.std.specs.Prelude.{◌<◌, ◌^◌, List, length};
    ghost use Rattle.love_base.specs.declared.stamp.Stamp.{Stamp};

    ghost Value = { List Stamp };

    ghost view = { λ s. s.items.items };

    ghost invariant = { λ s. length s.items.items < 2 ^ 22 };
}

impl Stamps {
    pub(super) fn new(alloc: Global) -> Stamps
        ensures { result ≡ [] }
    {
        Stamps {
            items: Vec::new(alloc),
        }
    }

    fn len(&self) -> u32
        ensures length { result ≡ length self.now }
        ensures fits { result < 2 ^ 22 }
    {
        self.items.len() as u32
    }

    // Adds a stamp, if there is memory for it.
    fn add(&mut self, stamp: Stamp)
        ensures { IsPrefix self.old self.new }
    {
        if self.items.len() < 4_000_000 {
            let _full = self.items.push(stamp).is_err();
        }
    }
}

#[derive(Drop)]
pub(super) enum Ledger {
    Main(Stamps),
    Side(Stamps),
}

impl Logged for Ledger {
    ghost use Rattle.std.specs.Prelude.{length};
    ghost use Rattle.turn_desk.specs.declared.tests.ledger.Ledger.TheVariants.{Main, Side};

    type Entry = Stamp;

    ghost history = { elim [ Main s ↦ s | Side s ↦ s ] };

    ghost fixed_number = { elim [ Main s ↦ 0 | Side s ↦ 1 ] };

    ghost replay = { λ number stamps. if number == 0 then Main stamps else Side stamps };

    ghost summed = { length };

    ghost between = { λ _. true };

    ghost stamped = { λ stamp. stamp };

    fn length(&self) -> u32 {
        match self {
            Ledger::Main(stamps) | Ledger::Side(stamps) => stamps.len(),
        }
    }

    fn summary(&self) -> u64 {
        u64::from(self.length())
    }

    fn is_between(&self) -> bool {
        true
    }

    fn fixed(&self) -> u64 {
        match self {
            Ledger::Main(_) => 0,
            Ledger::Side(_) => 1,
        }
    }

    fn stamp(entry: &Stamp) -> Stamp {
        *entry
    }

    ghost replays = { elim [ Main s ↦ refl | Side s ↦ refl ] };
}

impl Ledger {
    pub(super) fn stamps(&self) -> &[Stamp] {
        match self {
            Ledger::Main(stamps) | Ledger::Side(stamps) => stamps.items.as_slice(),
        }
    }

    pub(super) fn add(&mut self, stamp: Stamp)
        ensures grown { IsPrefix
            (⟦<Ledger as Logged>⟧.history self.old) (⟦<Ledger as Logged>⟧.history self.new) }
        ensures fixed { ⟦<Ledger as Logged>⟧.fixed_number self.new
            ≡ ⟦<Ledger as Logged>⟧.fixed_number self.old }
    {
        match self {
            Ledger::Main(stamps) => stamps.add(stamp),
            Ledger::Side(stamps) => stamps.add(stamp),
        }
    }
}
