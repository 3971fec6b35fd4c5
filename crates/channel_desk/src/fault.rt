ghost use Rattle.std.specs.Prelude.{◌≡◌};
ghost use Rattle.channel_desk.specs.declared.fault.ActFault.TheVariants.{Memory as OutOfMemory};

use std::alloc::AllocError;
use variant::Stop;

/// Why a state's ask was not answered. No object was changed by it.
#[derive(Debug, Drop)]
pub enum ActFault {
    /// State 0 has ended, and the ask would wait.
    Stopped(Stop),
    /// Want of memory.
    Memory,
}

impl From<love_base::Memory> for ActFault {
    ghost from_gives = { λ _ fault. fault ≡ OutOfMemory };

    fn from(_refused: love_base::Memory) -> ActFault {
        ActFault::Memory
    }
}

impl From<AllocError> for ActFault {
    ghost from_gives = { λ _ fault. fault ≡ OutOfMemory };

    fn from(_refused: AllocError) -> ActFault {
        ActFault::Memory
    }
}
