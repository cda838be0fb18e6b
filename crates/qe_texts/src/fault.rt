//! Why a reply isn't printed.

use qe_base::NoMemory;
use qe_bson::JsonFault;
use std::alloc::AllocError;

/// Why a reply isn't printed.
#[derive(Clone, Copy, Debug, PartialEq, Eq)]
pub enum PrintFault {
    /// A double, a decimal or a timestamp stands in a document or is an id.
    Unprintable,
    /// There was no memory.
    NoMemory,
}

impl From<NoMemory> for PrintFault {
    ghost use Rattle.std.specs.Prelude.{◌≡◌};
    ghost use Rattle.qe_texts.specs.declared.fault.PrintFault.TheVariants as f;

    ghost from_gives = { λ _ fault. fault ≡ f.NoMemory };

    fn from(_: NoMemory) -> Self {
        PrintFault::NoMemory
    }
}

impl From<AllocError> for PrintFault {
    ghost use Rattle.std.specs.Prelude.{◌≡◌};
    ghost use Rattle.qe_texts.specs.declared.fault.PrintFault.TheVariants as f;

    ghost from_gives = { λ _ fault. fault ≡ f.NoMemory };

    fn from(_: AllocError) -> Self {
        PrintFault::NoMemory
    }
}
