//! Why a reply isn't read.

use qe_base::NoMemory;
use qe_indexed::IndexedFault;
use qe_seal::SealFault;
use qe_value::BsonFault;
use thiserror::Error;

/// Why a stored value isn't opened: the first of these that holds.
#[derive(Clone, Copy, Debug, PartialEq, Eq, Error)]
pub enum ReadKind {
    /// It is no indexed value.
    #[error("no indexed value: {0}")]
    Indexed(IndexedFault),
    /// The id that it names, or the one that its deciphered bytes begin with, isn't that of the field's key.
    #[error("sealed under another key than the field's")]
    KeyDiffers,
    /// Its seal is refused.
    #[error("the seal is refused: {0}")]
    Seal(SealFault),
    /// The sealed bytes are no value of the type that it names.
    #[error("no value of its type: {0}")]
    Bson(BsonFault),
}

/// Why a reply isn't read.
#[derive(Clone, Copy, Debug, PartialEq, Eq, Error)]
pub enum ReadFault {
    /// The first cell that has no value, in the order of rows and cells: its field's number, and why.
    #[error("field {field}: {kind}")]
    At { field: u32, kind: ReadKind },
    /// There was no memory.
    #[error("out of memory")]
    NoMemory,
}

impl From<NoMemory> for ReadFault {
    ghost use Rattle.std.specs.Prelude.{◌≡◌};
    ghost use Rattle.qe_opening.specs.declared.fault.ReadFault.TheVariants.{NoMemory};

    ghost from_gives = { λ _ fault. fault ≡ NoMemory };

    fn from(_: NoMemory) -> Self {
        ReadFault::NoMemory
    }
}

/// Why one value isn't opened.
#[derive(Clone, Copy)]
pub(crate) enum OpenFault {
    /// What is wrong with it.
    Kind(ReadKind),
    /// There was no memory.
    NoMemory,
}

impl From<NoMemory> for OpenFault {
    ghost use Rattle.std.specs.Prelude.{◌≡◌};
    ghost use Rattle.qe_opening.specs.declared.fault.OpenFault.TheVariants.{NoMemory};

    ghost from_gives = { λ _ fault. fault ≡ NoMemory };

    fn from(_: NoMemory) -> Self {
        OpenFault::NoMemory
    }
}

impl From<IndexedFault> for OpenFault {
    ghost use Rattle.std.specs.Prelude.{◌≡◌};
    ghost use Rattle.qe_opening.specs.Faults.{of_indexed};

    ghost from_gives = { λ cause fault. fault ≡ of_indexed cause };

    fn from(cause: IndexedFault) -> Self {
        match cause {
            IndexedFault::NoMemory => OpenFault::NoMemory,
            other => OpenFault::Kind(ReadKind::Indexed(other)),
        }
    }
}

impl From<SealFault> for OpenFault {
    ghost use Rattle.std.specs.Prelude.{◌≡◌};
    ghost use Rattle.qe_opening.specs.Faults.{of_seal};

    ghost from_gives = { λ cause fault. fault ≡ of_seal cause };

    fn from(cause: SealFault) -> Self {
        match cause {
            SealFault::NoMemory => OpenFault::NoMemory,
            other => OpenFault::Kind(ReadKind::Seal(other)),
        }
    }
}

impl From<BsonFault> for OpenFault {
    ghost use Rattle.std.specs.Prelude.{◌≡◌};
    ghost use Rattle.qe_opening.specs.Faults.{of_bson};

    ghost from_gives = { λ cause fault. fault ≡ of_bson cause };

    fn from(cause: BsonFault) -> Self {
        match cause {
            BsonFault::NoMemory => OpenFault::NoMemory,
            other => OpenFault::Kind(ReadKind::Bson(other)),
        }
    }
}
