//! Why keys don't serve a schema.

use qe_base::NoMemory;
use thiserror::Error;

/// Why keys don't serve a schema.
#[derive(Clone, Copy, Debug, PartialEq, Eq, Error)]
pub enum KeyFault {
    /// There isn't one key for each encrypted field.
    #[error("{got} keys for {want} encrypted fields")]
    WrongNumber { want: u64, got: u64 },
    /// The keys of two fields have the same last 32 bytes.
    #[error("the keys of fields {first} and {second} have one root")]
    DuplicateRoot { first: u32, second: u32 },
    /// There was no memory.
    #[error("there is not enough memory")]
    NoMemory,
}

impl From<NoMemory> for KeyFault {
    ghost use Rattle.std.specs.Prelude.{◌≡◌};
    ghost use Rattle.qe_schema.specs.declared.fault.KeyFault.TheVariants as k;

    ghost from_gives = { λ _ fault. fault ≡ k.NoMemory };

    fn from(_: NoMemory) -> Self {
        KeyFault::NoMemory
    }
}
