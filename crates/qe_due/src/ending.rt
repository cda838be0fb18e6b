//! What a call ends with, before anything is written.

use qe_base::{Bytes, NoMemory, Status};

/// What is to be written, and the status that it comes with.
#[derive(Drop)]
pub struct Ending {
    pub status: Status,
    pub text: Bytes,
}

/// Why nothing is to be written.
#[derive(Drop)]
pub enum Stop {
    /// The source failed.
    ReadFault,
    /// There was no memory.
    NoMemory,
}

impl From<NoMemory> for Stop {
    ghost use Rattle.std.specs.Prelude.{◌≡◌};
    ghost use Rattle.qe_due.specs.declared.ending.Stop.TheVariants.{NoMemory};

    ghost from_gives = { λ _ stop. stop ≡ NoMemory };

    fn from(_: NoMemory) -> Self {
        Stop::NoMemory
    }
}
