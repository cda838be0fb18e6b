//! Why a job isn't begun, and why a step doesn't do all its units.

use qe_base::NoMemory;
use thiserror::Error;

/// Why a job isn't begun. Nothing is changed then.
#[derive(Clone, Copy, Debug, PartialEq, Eq, Error)]
pub enum BeginFault {
    /// The job of this number runs.
    #[error("job {0} runs")]
    JobRunning(u64),
    /// A row that would be aside is of this field, for which no token was sent.
    #[error("no token for field {0}")]
    TokenMissing(u32),
    /// There was no memory.
    #[error("there is not enough memory")]
    NoMemory,
}

impl From<NoMemory> for BeginFault {
    ghost use Rattle.std.specs.Prelude.{◌≡◌};
    ghost use Rattle.qe_compact.specs.declared.fault.BeginFault.TheVariants as b;

    ghost from_gives = { λ _ fault. fault ≡ b.NoMemory };

    fn from(_: NoMemory) -> Self {
        BeginFault::NoMemory
    }
}

/// Why a step ends before its units are done.
#[derive(Clone, Copy, Debug, PartialEq, Eq, Error)]
pub enum StepFault {
    /// The row opened last is of this field, and its token has neither a null anchor nor a row. The units before it are done,
    /// and no job runs.
    #[error("a row of field {0} opens to a token without rows")]
    TokenMismatch(u32),
    /// There was no memory. Nothing is changed.
    #[error("there is not enough memory")]
    NoMemory,
}

impl From<NoMemory> for StepFault {
    ghost use Rattle.std.specs.Prelude.{◌≡◌};
    ghost use Rattle.qe_compact.specs.declared.fault.StepFault.TheVariants as s;

    ghost from_gives = { λ _ fault. fault ≡ s.NoMemory };

    fn from(_: NoMemory) -> Self {
        StepFault::NoMemory
    }
}
