use crate::Pacer;
use std::rt::Clock;
use std::thread;
use std::time::{Duration, Instant};

/// The system's clock, in milliseconds since this was made. A reading is 0 where the clock can't be
/// read. What it measured is outside the clauses: it shows every number.
#[derive(Drop)]
pub struct RealPacer<R: Clock + Drop> {
    rt: R,
    start: Option<Instant>,
}

impl<R: Clock + Drop> RealPacer<R> {
    /// The clock that `rt` reaches, from now on.
    pub fn new(rt: R) -> RealPacer<R> {
        let start = Instant::now(&rt).ok();
        RealPacer { rt, start }
    }

    // The milliseconds since the start, where the clock can be read.
    fn elapsed(&self) -> Option<u64> {
        let elapsed = self.start?.elapsed(&self.rt).ok()?;
        u64::try_from(elapsed.as_millis()).ok()
    }
}

impl<R: Clock + Drop> Pacer for RealPacer<R> {
    ghost use Rattle.std.specs.Prelude.{⊤};

    ghost shows = { λ _ _. ⊤ };

    fn now(&self) -> u64 {
        self.elapsed().unwrap_or(0)
    }

    /// Sleeps for a millisecond.
    fn pause(&self) {
        thread::sleep(&self.rt, Duration::from_millis(1));
    }
}
