//! Why documents could not be read, written or built.

use qe_base::NoMemory;
use std::alloc::{AllocError, AllocFailed};
use thiserror::Error;

/// What is wrong with bytes that should begin with a document.
#[derive(Clone, Copy, Debug, PartialEq, Eq, Error)]
pub enum BsonKind {
    /// There are fewer bytes than a length, or than the length says.
    #[error("there are fewer bytes than the document's length")]
    Short,
    /// A length is below its least or passes the end, or a type byte is 0.
    #[error("a length is below its least or passes the end")]
    LengthWrong,
    /// The document's length is above 16,777,216.
    #[error("the document has more than 16,777,216 bytes")]
    TooLong,
    /// A byte 0 is missing where a document, a name or a string ends.
    #[error("the byte 0 is missing at an end")]
    NoTerminator,
    /// A type byte is none of the profile's.
    #[error("the type is not supported")]
    TypeUnknown,
    /// A name or a string isn't UTF-8.
    #[error("a name or a string is not UTF-8")]
    NotUtf8,
    /// A name stands in its document before.
    #[error("a name stands twice in a document")]
    DuplicateName,
    /// A name in an array isn't the item's index.
    #[error("a name in an array is not the item's index")]
    ArrayKey,
    /// A bool is neither 0 nor 1.
    #[error("a bool is neither 0 nor 1")]
    BadBool,
    /// A document stands at depth 101.
    #[error("a document has more than 100 levels")]
    TooDeep,
}

/// Why no document was read.
#[derive(Clone, Copy, Debug, PartialEq, Eq, Error)]
pub enum BsonFault {
    /// The first fault, and its place: so many bytes stand before it.
    #[error("{kind}, behind {place} bytes")]
    At { place: usize, kind: BsonKind },
    /// There was no memory.
    #[error("there is not enough memory")]
    NoMemory,
}

/// Why a document was not written.
#[derive(Clone, Copy, Debug, PartialEq, Eq, Error)]
pub enum EncodeFault {
    /// It has more than 16,777,216 bytes.
    #[error("the document has more than 16,777,216 bytes")]
    TooLong,
    /// It has more than 100 levels.
    #[error("the document has more than 100 levels")]
    TooDeep,
    /// A name holds the byte 0.
    #[error("a name holds the byte 0")]
    ZeroInName,
    /// There was no memory.
    #[error("there is not enough memory")]
    NoMemory,
}

/// Why a field was not added.
#[derive(Clone, Copy, Debug, PartialEq, Eq, Error)]
pub enum PushFault {
    /// The document has the name.
    #[error("the document has the name already")]
    DuplicateName,
    /// There was no memory.
    #[error("there is not enough memory")]
    NoMemory,
}

impl From<AllocError> for BsonFault {
    ghost use Rattle.std.specs.Prelude.{◌≡◌};
    ghost use Rattle.qe_value.specs.declared.fault.BsonFault.TheVariants.{NoMemory};

    ghost from_gives = { λ _ fault. fault ≡ NoMemory };

    fn from(_: AllocError) -> Self {
        BsonFault::NoMemory
    }
}

impl<T: Drop> From<AllocFailed<T>> for BsonFault {
    ghost use Rattle.std.specs.Prelude.{◌≡◌};
    ghost use Rattle.qe_value.specs.declared.fault.BsonFault.TheVariants.{NoMemory};

    ghost from_gives = { λ _ fault. fault ≡ NoMemory };

    fn from(_: AllocFailed<T>) -> Self {
        BsonFault::NoMemory
    }
}

impl From<NoMemory> for BsonFault {
    ghost use Rattle.std.specs.Prelude.{◌≡◌};
    ghost use Rattle.qe_value.specs.declared.fault.BsonFault.TheVariants.{NoMemory};

    ghost from_gives = { λ _ fault. fault ≡ NoMemory };

    fn from(_: NoMemory) -> Self {
        BsonFault::NoMemory
    }
}

impl From<AllocError> for EncodeFault {
    ghost use Rattle.std.specs.Prelude.{◌≡◌};
    ghost use Rattle.qe_value.specs.declared.fault.EncodeFault.TheVariants.{NoMemory};

    ghost from_gives = { λ _ fault. fault ≡ NoMemory };

    fn from(_: AllocError) -> Self {
        EncodeFault::NoMemory
    }
}

impl<T: Drop> From<AllocFailed<T>> for EncodeFault {
    ghost use Rattle.std.specs.Prelude.{◌≡◌};
    ghost use Rattle.qe_value.specs.declared.fault.EncodeFault.TheVariants.{NoMemory};

    ghost from_gives = { λ _ fault. fault ≡ NoMemory };

    fn from(_: AllocFailed<T>) -> Self {
        EncodeFault::NoMemory
    }
}

impl<T: Drop> From<AllocFailed<T>> for PushFault {
    ghost use Rattle.std.specs.Prelude.{◌≡◌};
    ghost use Rattle.qe_value.specs.declared.fault.PushFault.TheVariants.{NoMemory};

    ghost from_gives = { λ _ fault. fault ≡ NoMemory };

    fn from(_: AllocFailed<T>) -> Self {
        PushFault::NoMemory
    }
}
