ghost use Rattle.std.specs.Prelude.{◌≡◌};
ghost use Rattle.channel_core.specs.declared.fault.PutFault.TheVariants.{Memory as OutOfMemory};

use std::alloc::AllocError;

/// Why a Channel refused a change. After it the Channel is as it was.
#[derive(Clone, Copy, Debug, PartialEq, Eq)]
pub enum PutFault {
    /// The history has 2,000,000 entries or more.
    Full = 1,
    /// Want of memory.
    Memory,
}

impl From<love_base::Memory> for PutFault {
    ghost from_gives = { λ _ fault. fault ≡ OutOfMemory };

    fn from(_refused: love_base::Memory) -> PutFault {
        PutFault::Memory
    }
}

impl From<AllocError> for PutFault {
    ghost from_gives = { λ _ fault. fault ≡ OutOfMemory };

    fn from(_refused: AllocError) -> PutFault {
        PutFault::Memory
    }
}
