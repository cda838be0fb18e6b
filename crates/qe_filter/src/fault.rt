//! Why a command was refused.

use qe_base::{NoMemory, Text};
use std::alloc::{AllocError, AllocFailed};
use std::fmt;
use thiserror::Error;

/// Why a command has no meaning under a schema.
#[derive(Drop, Error)]
pub enum PlainFault {
    /// The document to insert has no `_id`.
    #[error("no _id")]
    NoId,
    /// An id is none of int32, int64, string and object id.
    #[error("a bad _id")]
    BadId,
    /// A name begins with `$` or `__`, or is `_id` in a set.
    #[error("the name {} is reserved", .0.as_str())]
    ReservedName(Text),
    /// The schema doesn't have the field.
    #[error("no field {}", .0.as_str())]
    UnknownField(Text),
    /// The field isn't encrypted, or an interval is asked of an equality field.
    #[error("the field {} is not indexed so", .0.as_str())]
    NotIndexed(Text),
    /// A value is of another type than its field.
    #[error("a value of another type than the field {}", .0.as_str())]
    TypeDiffers(Text),
    /// A value of a range field is outside its domain.
    #[error("a value outside the domain of the field {}", .0.as_str())]
    OutOfDomain(Text),
    /// An object for a range field is no interval, or a `$and` no array of plain filters.
    #[error("a bad filter under {}", .0.as_str())]
    BadFilter(Text),
    /// A limit isn't 1 to 65,536.
    #[error("the limit {0} is not 1 to 65536")]
    BadLimit(u64),
    /// A contention is above the field's greatest one.
    #[error("the contention {0} is above the field's greatest")]
    BadContention(u64),
    /// There was no memory.
    #[error("there is not enough memory")]
    NoMemory,
}

// A text has no other form than its own.
impl fmt::Debug for PlainFault {
    fn fmt<W: fmt::Write>(&self, f: &mut fmt::Formatter<W>) -> fmt::Result {
        write!(f, "{self}")
    }
}

impl From<NoMemory> for PlainFault {
    ghost use Rattle.std.specs.Prelude.{◌≡◌};
    ghost use Rattle.qe_filter.specs.declared.fault.PlainFault.TheVariants as f;

    ghost from_gives = { λ _ fault. fault ≡ f.NoMemory };

    fn from(_: NoMemory) -> Self {
        PlainFault::NoMemory
    }
}

impl<T: Drop> From<AllocFailed<T>> for PlainFault {
    ghost use Rattle.std.specs.Prelude.{◌≡◌};
    ghost use Rattle.qe_filter.specs.declared.fault.PlainFault.TheVariants as f;

    ghost from_gives = { λ _ fault. fault ≡ f.NoMemory };

    fn from(_: AllocFailed<T>) -> Self {
        PlainFault::NoMemory
    }
}

impl From<AllocError> for PlainFault {
    ghost use Rattle.std.specs.Prelude.{◌≡◌};
    ghost use Rattle.qe_filter.specs.declared.fault.PlainFault.TheVariants as f;

    ghost from_gives = { λ _ fault. fault ≡ f.NoMemory };

    fn from(_: AllocError) -> Self {
        PlainFault::NoMemory
    }
}
