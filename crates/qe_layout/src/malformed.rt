//! Refusals, with the path at which they come.

ghost use Rattle.std.specs.Prelude.{Result};
ghost use Rattle.qe_layout.specs.Refusal.{Reads, Refusal, read_inside, wrong};

use qe_base::{NoMemory, Text};
use qe_document::BsonFault;
use std::alloc::{AllocError, Global};
use std::fmt;
use thiserror::Error;

/// What is wrong with a payload or a command.
#[derive(Clone, Copy, Debug, PartialEq, Eq, Error)]
pub enum Kind {
    /// A blob has no bytes.
    #[error("it has no bytes")]
    Empty,
    /// A blob's first byte, which is given, is another than the call reads.
    #[error("its first byte is {0}, which is another kind")]
    BlobSubtype(u8),
    /// The bytes hold no document; a place counts from the document's first byte.
    #[error("it holds no document: {0}")]
    Bson(BsonFault),
    /// So many bytes stand behind the document.
    #[error("{0} bytes stand behind the document")]
    Trailing(u64),
    /// A name is none of the table's.
    #[error("the name is unknown")]
    Unknown,
    /// A value has another type or subtype.
    #[error("the value has another type")]
    WrongType,
    /// A binary has so many bytes, and another number is wanted.
    #[error("its length is {0}, and another is wanted")]
    WrongLength(u64),
    /// A number is below 0.
    #[error("the number is negative")]
    Negative,
    /// An insert payload has an empty array of edges.
    #[error("there are no edges")]
    NoEdges,
    /// An array has so many edges, which is more than are allowed.
    #[error("{0} edges are too many")]
    TooManyEdges(u64),
    /// An operator is another than the one of its place, or the second isn't there.
    #[error("the operator isn't the one of its place")]
    ProfileOperator,
    /// A name isn't there.
    #[error("it is missing")]
    Missing,
    /// A command's name is none of the known.
    #[error("the command is unknown")]
    UnknownOp,
    /// A name begins with `$` or `__`, or is `_id` where it can't be set.
    #[error("the name is reserved")]
    ReservedName,
    /// The schema has no such field, or has a plain one where an encrypted one is wanted.
    #[error("the schema has no such encrypted field")]
    NotInSchema,
    /// A payload is of another kind than its field's.
    #[error("the payload's kind isn't the field's")]
    KindDiffers,
    /// A payload has another key than its field's.
    #[error("the payload's key isn't the field's")]
    KeyDiffers,
    /// A contention factor is above its field's limit.
    #[error("the contention factor {got} is above {limit}")]
    ContentionAbove { got: u64, limit: u64 },
    /// A step's limit, which is given, is out of range.
    #[error("the limit {0} is out of range")]
    BadLimit(i32),
}

/// Why a blob or a command was refused.
#[derive(Drop, Error)]
pub enum Malformed {
    /// The first refusal, at a path: names, and indices of arrays, joined by dots; `.` is the whole.
    #[error("at {}: {kind}", .path.as_str())]
    At { path: Text, kind: Kind },
    /// There was no memory.
    #[error("there is not enough memory")]
    NoMemory,
}

impl fmt::Debug for Malformed {
    fn fmt<W: fmt::Write>(&self, f: &mut fmt::Formatter<W>) -> fmt::Result {
        match self {
            Malformed::At { path, kind } => write!(f, "At({:?}, {:?})", path.as_str(), kind),
            Malformed::NoMemory => f.write_str("NoMemory"),
        }
    }
}

impl From<NoMemory> for Malformed {
    ghost use Rattle.std.specs.Prelude.{◌≡◌};
    ghost use Rattle.qe_layout.specs.declared.malformed.Malformed.TheVariants.{NoMemory};

    ghost from_gives = { λ _ fault. fault ≡ NoMemory };

    fn from(_: NoMemory) -> Self {
        Malformed::NoMemory
    }
}

impl From<AllocError> for Malformed {
    ghost use Rattle.std.specs.Prelude.{◌≡◌};
    ghost use Rattle.qe_layout.specs.declared.malformed.Malformed.TheVariants.{NoMemory};

    ghost from_gives = { λ _ fault. fault ≡ NoMemory };

    fn from(_: AllocError) -> Self {
        Malformed::NoMemory
    }
}

/// Refuses what stands at a path.
pub fn refuse<T>(alloc: Global, path: &str, kind: Kind) -> Result<T, Malformed>
    ensures { Reads result (wrong path.now kind) }
{
    match Text::of(alloc, path) {
        Ok(path) => Err(Malformed::At { path, kind }),
        Err(NoMemory) => Err(Malformed::NoMemory),
    }
}

/// What was read inside what stands under a name: the name and a dot are put before a refusal's path.
pub fn inside<T>(alloc: Global, name: &str, read: Result<T, Malformed>) -> Result<T, Malformed>
    ensures { (due : Result T Refusal) → Reads read due → Reads result (read_inside name.now due) }
{
    match read {
        Ok(answer) => Ok(answer),
        Err(Malformed::At { path, kind }) => match format!(in alloc; "{name}.{}", path.as_str()) {
            Ok(longer) => refuse(alloc, longer.as_str(), kind),
            Err(_) => Err(Malformed::NoMemory),
        },
        Err(Malformed::NoMemory) => Err(Malformed::NoMemory),
    }
}
