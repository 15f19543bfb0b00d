//! Want of memory, the one answer that any growing call may give.

use std::alloc::{AllocError, AllocFailed};

/// Want of memory.
#[derive(Clone, Copy, Debug, Drop, PartialEq, Eq)]
pub struct NoMemory;

impl From<AllocError> for NoMemory {
    fn from(_refused: AllocError) -> NoMemory {
        NoMemory
    }
}

impl<T: Drop> From<AllocFailed<T>> for NoMemory {
    fn from(_refused: AllocFailed<T>) -> NoMemory {
        NoMemory
    }
}
