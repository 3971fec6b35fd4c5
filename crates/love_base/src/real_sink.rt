ghost use Rattle.std.specs.Prelude.{◌≡◌, ◌<◌, ◌≤◌, Option, length, IfOk, IsErrOf};
ghost use Rattle.love_base.specs.Fault.{HasRisen, next_count};

use crate::{Sink, SinkErr};
use std::io;
use std::marker::Model;

/// Standard output. Each call is one write of the system, and keeps no byte back. An output that
/// takes nothing of a piece is a failure.
#[derive(Drop)]
pub struct RealSink<R: Print + Drop> {
    rt: R,
    faults: u64,
}

impl<R: Print + Drop> Model for RealSink<R> {
    ghost use Rattle.std.specs.Prelude.{ℕ};

    ghost Value = { ℕ };

    ghost view = { λ sink. sink.faults };
}

impl<R: Print + Drop> RealSink<R> {
    /// The standard output that `rt` reaches.
    pub fn new(rt: R) -> RealSink<R>
        ensures { result ≡ 0 }
    {
        RealSink { rt, faults: 0 }
    }
}

impl<R: Print + Drop> Sink for RealSink<R> {
    ghost faults = { λ sink. sink };

    ghost taken = { λ _. Option.None };

    fn write(&mut self, piece: &[u8]) -> Result<usize, SinkErr>
        requires { 0 < length piece.now }
        ensures some { IfOk result (λ count. 0 < count) }
        ensures within { IfOk result (λ count. count ≤ length piece.now) }
        ensures failed { IsErrOf result SinkErr.Failed → HasRisen self.old self.new }
        ensures counted { IsErrOf result SinkErr.Failed → self.new ≡ next_count self.old }
        ensures steady { ¬ IsErrOf result SinkErr.Failed → self.new ≡ self.old }
    {
        match self.rt.write_some(piece) {
            Ok(count) if count > 0 => Ok(count),
            Err(fault) if fault.kind() == io::ErrorKind::OutOfMemory => Err(SinkErr::Memory),
            _ => {
                self.faults = self.faults.saturating_add(1);
                Err(SinkErr::Failed)
            }
        }
    }
}
