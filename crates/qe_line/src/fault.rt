//! Why lines weren't printed.

use hex::FromHexError;
use qe_base::{Failed, NoMemory, TakeFault};
use std::alloc::AllocError;
use std::io;
use thiserror::Error;

/// Why the lines weren't printed to their end.
#[derive(Clone, Copy, Debug, PartialEq, Eq, Error)]
pub enum Fault {
    /// There was no memory.
    #[error("there is not enough memory")]
    NoMemory,
    /// A standard stream failed.
    #[error("a standard stream failed")]
    Failed,
    /// A call refused what it was to take.
    #[error("a call refused what it was to take")]
    Refused,
}

impl From<NoMemory> for Fault {
    fn from(_: NoMemory) -> Self {
        Fault::NoMemory
    }
}

impl From<AllocError> for Fault {
    fn from(_: AllocError) -> Self {
        Fault::NoMemory
    }
}

impl From<io::Error> for Fault {
    fn from(_: io::Error) -> Self {
        Fault::Failed
    }
}

impl From<FromHexError> for Fault {
    fn from(_: FromHexError) -> Self {
        Fault::Refused
    }
}

impl From<Failed> for Fault {
    fn from(_: Failed) -> Self {
        Fault::Failed
    }
}

impl From<TakeFault> for Fault {
    fn from(_: TakeFault) -> Self {
        Fault::Failed
    }
}

/// What a call answered that was not to refuse.
pub fn accepted<T: Drop, E: Drop>(answer: Result<T, E>) -> Result<T, Fault> {
    match answer {
        Ok(value) => Ok(value),
        Err(_) => Err(Fault::Refused),
    }
}
