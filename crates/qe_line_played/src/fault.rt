//! Why a line isn't played.

use qe_base::NoMemory;
use qe_client::ReadFault;
use thiserror::Error;

/// Why a line isn't played.
#[derive(Clone, Copy, Debug, PartialEq, Eq, Error)]
pub enum PlayFault {
    /// The engine's reply isn't read; the line's entry stands in the journal.
    #[error("the reply isn't read: {0}")]
    Read(ReadFault),
    /// There was no memory; the line's entry stands in the journal or not.
    #[error("out of memory")]
    NoMemory,
}

impl From<NoMemory> for PlayFault {
    ghost use Rattle.std.specs.Prelude.{◌≡◌};
    ghost use Rattle.qe_line_played.specs.declared.fault.PlayFault.TheVariants.{NoMemory};

    ghost from_gives = { λ _ fault. fault ≡ NoMemory };

    fn from(_: NoMemory) -> Self {
        PlayFault::NoMemory
    }
}

impl From<ReadFault> for PlayFault {
    ghost use Rattle.std.specs.Prelude.{◌≡◌};
    ghost use Rattle.qe_line_played.specs.Faults.{of_read};

    ghost from_gives = { λ cause fault. fault ≡ of_read cause };

    fn from(cause: ReadFault) -> Self {
        match cause {
            ReadFault::NoMemory => PlayFault::NoMemory,
            at => PlayFault::Read(at),
        }
    }
}
