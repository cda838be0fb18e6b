//! Why bytes were no indexed value.

use qe_base::NoMemory;
use thiserror::Error;

/// Why bytes are no indexed value: the first of these that holds.
#[derive(Clone, Copy, Debug, PartialEq, Eq, Error)]
pub enum IndexedFault {
    /// The first byte, which is given, is neither 14 nor 15.
    #[error("the first byte is {0} and not 14 or 15")]
    BlobSubtype(u8),
    /// There is no byte, or fewer than 130 of an equality value, or fewer than 19 of a range value.
    #[error("too few bytes")]
    Short,
    /// The edge count of a range value is 0.
    #[error("the edge count is 0")]
    EdgeCountZero,
    /// A range value has no room for its blocks behind a server-encrypted value of 16 bytes.
    #[error("too few bytes for the edge count")]
    LengthWrong,
    /// There was no memory.
    #[error("out of memory")]
    NoMemory,
}

impl From<NoMemory> for IndexedFault {
    ghost use Rattle.std.specs.Prelude.{◌≡◌};
    ghost use Rattle.qe_indexed.specs.declared.fault.IndexedFault.TheVariants.{NoMemory};

    ghost from_gives = { λ _ fault. fault ≡ NoMemory };

    fn from(_: NoMemory) -> Self {
        IndexedFault::NoMemory
    }
}
