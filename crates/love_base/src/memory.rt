use std::alloc::{AllocError, AllocFailed};

/// Want of memory: the one answer whose cause no contract states.
///
/// It is an error of its own where nothing else can fail, and a variant of that name in each larger
/// fault type.
#[derive(Clone, Copy, Debug, PartialEq, Eq)]
pub struct Memory;

impl From<AllocError> for Memory {
    fn from(_refused: AllocError) -> Memory {
        Memory
    }
}

impl<T: Drop> From<AllocFailed<T>> for Memory {
    fn from(_refused: AllocFailed<T>) -> Memory {
        Memory
    }
}
