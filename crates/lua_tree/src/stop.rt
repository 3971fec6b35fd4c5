// Why a reading stops.
ghost use Rattle.std.specs.Prelude.{◌≡◌};
ghost use Rattle.lua_tree.specs.declared.stop.Stop.TheVariants.{Memory as OutOfMemory};

use love_base::Memory;
use std::alloc::{AllocError, AllocFailed};

// What is wrong at a token. Where several are, the first of them counts.
#[derive(Clone, Copy, Debug, PartialEq, Eq)]
pub(crate) enum Fault {
    Unexpected,
    BreakOutside,
    VarargOutside,
    TooDeep,
    TooManyLocals,
    AmbiguousCall,
}

// A fault at the token of a place, or want of memory.
#[derive(Clone, Copy, Debug, PartialEq, Eq)]
pub(crate) enum Stop {
    At(Fault, usize),
    Memory,
}

impl From<Memory> for Stop {
    ghost from_gives = { λ _ stop. stop ≡ OutOfMemory };

    fn from(_refused: Memory) -> Stop {
        Stop::Memory
    }
}

impl From<AllocError> for Stop {
    ghost from_gives = { λ _ stop. stop ≡ OutOfMemory };

    fn from(_refused: AllocError) -> Stop {
        Stop::Memory
    }
}

impl<T: Drop> From<AllocFailed<T>> for Stop {
    ghost from_gives = { λ _ stop. stop ≡ OutOfMemory };

    fn from(_refused: AllocFailed<T>) -> Stop {
        Stop::Memory
    }
}
