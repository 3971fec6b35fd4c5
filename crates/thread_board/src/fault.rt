ghost use Rattle.std.specs.Prelude.{◌≡◌};
ghost use Rattle.thread_board.specs.declared.fault.BoardFault.TheVariants.{Memory as OutOfMemory};

use std::alloc::{AllocError, AllocFailed};
use thiserror::Error;

/// Why the board refused a change. After it the board is as it was.
#[derive(Clone, Copy, Debug, PartialEq, Eq, Error)]
pub enum BoardFault {
    /// 1,024 Channels were made.
    #[error("1,024 Channels were made")]
    TooManyChannels,
    /// 1,000 Threads were made.
    #[error("1,000 Threads were made")]
    TooManyThreads,
    /// As many states are started and not ended as there are workers.
    #[error("{running} states run, as many as there are workers")]
    TooManyRunning {
        /// How many.
        running: u32,
    },
    /// 1,000 states were started.
    #[error("1,000 states were started")]
    TooManyStarts,
    /// The Thread runs already.
    #[error("the Thread runs already, as state {state}")]
    AlreadyRunning {
        /// Its state.
        state: u32,
    },
    /// State 0 has ended.
    #[error("state 0 has ended, at place {place}")]
    Closed {
        /// The place of that entry in the history, counted from 1.
        place: u32,
    },
    /// The Thread wasn't made.
    #[error("the Thread wasn't made")]
    NoSuchThread,
    /// Want of memory.
    #[error("want of memory")]
    Memory,
}

impl From<love_base::Memory> for BoardFault {
    ghost from_gives = { λ _ fault. fault ≡ OutOfMemory };

    fn from(_refused: love_base::Memory) -> BoardFault {
        BoardFault::Memory
    }
}

impl From<AllocError> for BoardFault {
    ghost from_gives = { λ _ fault. fault ≡ OutOfMemory };

    fn from(_refused: AllocError) -> BoardFault {
        BoardFault::Memory
    }
}

impl<T: Drop> From<AllocFailed<T>> for BoardFault {
    ghost from_gives = { λ _ fault. fault ≡ OutOfMemory };

    fn from(_refused: AllocFailed<T>) -> BoardFault {
        BoardFault::Memory
    }
}
