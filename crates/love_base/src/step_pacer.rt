ghost use Rattle.std.specs.Prelude.{◌≡◌};

use crate::Pacer;
use std::sync::atomic::{AtomicU64, Ordering};

/// A clock for tests: its readings grow by the same step each time, from 0 on.
#[derive(Drop)]
pub struct StepPacer {
    step: u64,
    // How many readings were given; it stays at the greatest number.
    given: AtomicU64,
}

impl StepPacer {
    /// A clock whose first reading is 0, and each later one `step` milliseconds more. It stays at
    /// the greatest `u64`.
    pub fn new(step: u64) -> StepPacer
        ensures { result.step ≡ step }
    {
        StepPacer {
            step,
            given: AtomicU64::new(0),
        }
    }

    // How many readings were given before this one.
    fn count(&self) -> u64 {
        if self.given.load(Ordering::SeqCst) < u64::MAX {
            self.given.fetch_add(1, Ordering::SeqCst)
        } else {
            u64::MAX
        }
    }
}

impl Pacer for StepPacer {
    ghost use Rattle.love_base.specs.Pacer.{IsReading};

    ghost shows = { λ pacer n. IsReading pacer.step n };

    #[tactic(auto, using(crate::proofs::Readings::reading))]
    fn now(&self) -> u64 {
        self.count().saturating_mul(self.step)
    }

    fn pause(&self) {}
}
