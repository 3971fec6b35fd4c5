ghost use Rattle.std.specs.Prelude.{◌≡◌, ◌++◌, ◌<◌, ◌≤◌, ℕ, List, Option, length, take, IfOk, OnErr, IsErrOf};
ghost use Rattle.std.specs.Option.{option_map};
ghost use Rattle.love_base.specs.Fault.{HasRisen};

use crate::Memory;

/// Why a [`Sink`] took nothing.
#[derive(Clone, Copy, Debug, PartialEq, Eq)]
pub enum SinkErr {
    /// The bytes can't be written. The sink counts it as a fault.
    Failed = 1,
    /// Want of memory.
    Memory,
}

impl From<Memory> for SinkErr {
    ghost use Rattle.love_base.specs.declared.sink.SinkErr.TheVariants.{Memory};

    ghost from_gives = { λ _ fault. fault ≡ Memory };

    fn from(_want: Memory) -> SinkErr {
        SinkErr::Memory
    }
}

/// Where the printed bytes go.
pub trait Sink {
    /// How many calls have failed so far: only a failure raises it. A count that reaches the end of
    /// its type stays there.
    ghost faults: { Self → ℕ };

    /// The bytes taken so far, where the sink tells them. Standard output doesn't.
    ghost taken: { Self → Option (List ℕ) };

    /// Takes 1 to all bytes of `piece`, from its front, and says how many.
    ///
    /// # Errors
    ///
    /// [`SinkErr::Failed`] where nothing can be written, [`SinkErr::Memory`] where there is no room
    /// for the bytes. A sink that tells its bytes took none then.
    fn write(&mut self, piece: &[u8]) -> Result<usize, SinkErr>
        requires { 0 < length piece.now }
        ensures some { IfOk result (λ count. 0 < count) }
        ensures within { IfOk result (λ count. count ≤ length piece.now) }
        ensures taken { IfOk result (λ count.
            taken self.new
            ≡ option_map (λ before. before ++ take count piece.now) (taken self.old)) }
        ensures refused { OnErr result (taken self.new ≡ taken self.old) }
        ensures failed { IsErrOf result SinkErr.Failed
            → HasRisen (faults self.old) (faults self.new) }
        ensures counted { faults self.old ≤ faults self.new }
        ensures steady { ¬ IsErrOf result SinkErr.Failed → faults self.new ≡ faults self.old };
}
