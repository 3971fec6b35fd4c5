ghost use Rattle.std.specs.Prelude.{◌≡◌, ◌+◌, ◌<◌, Option, length, min, Ok};
ghost use Rattle.love_base.specs.Fault.{last_count};

use crate::{Sink, SinkErr};
use std::marker::Model;

/// A sink that takes every piece whole, keeps none of its bytes, and never fails. Each call takes
/// constant time.
#[derive(Debug, Drop)]
pub struct CountSink {
    taken: u64,
}

impl Model for CountSink {
    ghost use Rattle.std.specs.Prelude.{ℕ};

    ghost Value = { ℕ };

    ghost view = { λ sink. sink.taken };
}

impl CountSink {
    /// A sink that has taken nothing.
    pub fn new() -> CountSink
        ensures { result ≡ 0 }
    {
        CountSink { taken: 0 }
    }

    /// How many bytes were taken. The count stays at the greatest `u64` once it stands there.
    pub fn taken(&self) -> u64
        ensures { result ≡ self.now }
    {
        self.taken
    }
}

impl Sink for CountSink {
    ghost faults = { λ _. 0 };

    ghost taken = { λ _. Option.None };

    fn write(&mut self, piece: &[u8]) -> Result<usize, SinkErr>
        requires { 0 < length piece.now }
        ensures whole { result ≡ Ok (length piece.now) }
        ensures counted { self.new ≡ min last_count (self.old + length piece.now) }
    {
        self.taken = self.taken.saturating_add(piece.len() as u64);
        Ok(piece.len())
    }
}
