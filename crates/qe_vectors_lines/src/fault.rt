//! Why the lines weren't printed to their end.

use std::io;

/// Why the lines weren't printed to their end.
#[derive(Debug, Drop)]
pub enum Fault {
    /// There was no memory.
    NoMemory,
    /// The standard output failed.
    Failed,
}

impl From<io::Error> for Fault {
    fn from(_: io::Error) -> Self {
        Fault::Failed
    }
}
