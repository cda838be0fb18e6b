//! Refusals that have no more to say.

use std::alloc::{AllocError, AllocFailed};
use thiserror::Error;

/// A source or a sink refused a call.
#[derive(Clone, Copy, Debug, PartialEq, Eq, Error)]
#[error("a source or a sink refused a call")]
pub struct Failed;

/// There was no memory for the call, which changed nothing.
#[derive(Clone, Copy, Debug, PartialEq, Eq, Error)]
#[error("there is not enough memory")]
pub struct NoMemory;

impl From<AllocError> for NoMemory {
    fn from(_: AllocError) -> Self {
        NoMemory
    }
}

impl<T: Drop> From<AllocFailed<T>> for NoMemory {
    fn from(_: AllocFailed<T>) -> Self {
        NoMemory
    }
}
