//! The refusals of this crate.
use std::alloc::{AllocError, AllocFailed};
use thiserror::Error;

/// A growth was refused: there is no memory for it. What was asked of the call was not done.
#[derive(Clone, Copy, Debug, PartialEq, Eq, Drop, Error)]
#[error("no memory")]
pub struct NoMemory;

/// A buffer has no room for as many bytes as were to be appended. Nothing of it was changed.
#[derive(Clone, Copy, Debug, PartialEq, Eq, Drop, Error)]
#[error("the buffer is full")]
pub struct Full;

impl From<AllocError> for NoMemory {
    fn from(_refused: AllocError) -> NoMemory {
        NoMemory
    }
}

impl<T: Drop> From<AllocFailed<T>> for NoMemory {
    fn from(_refused: AllocFailed<T>) -> NoMemory {
        NoMemory
    }
}
