//! Want of memory.
use std::alloc::{AllocError, AllocFailed};
use thiserror::Error;

/// No memory was to be had. It is the one answer that no clause ties to a cause.
#[derive(Clone, Copy, Debug, Error, PartialEq, Eq)]
#[error("no memory")]
pub struct NoMemory;

impl From<AllocError> for NoMemory {
    fn from(_refused: AllocError) -> NoMemory {
        NoMemory
    }
}

impl<T: Drop> From<AllocFailed<T>> for NoMemory {
    fn from(_refused: AllocFailed<T>) -> NoMemory {
        NoMemory
    }
}
