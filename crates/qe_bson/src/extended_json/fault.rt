//! Why JSON is no value, or a value has no JSON.

use qe_base::NoMemory;
use std::alloc::{AllocError, AllocFailed};
use thiserror::Error;

/// Why JSON is no value, or a value has no JSON.
#[derive(Clone, Copy, Debug, PartialEq, Eq, Error)]
pub enum JsonFault {
    /// A number is no integer from -2^63 to 2^63 - 1. Only `from_json` gives it.
    #[error("a number is not an integer of 64 bits")]
    BadNumber,
    /// An object with the name of a form alone hasn't that form. Only `from_json` gives it.
    #[error("an object has the name of a form and not its content")]
    BadForm,
    /// There are more than 100 levels of objects and arrays. Only `from_json` gives it.
    #[error("there are more than 100 levels of objects and arrays")]
    TooDeep,
    /// A double, a decimal or a timestamp has no form. Only `to_json` gives it.
    #[error("a double, a decimal or a timestamp has no form in JSON")]
    Unprintable,
    /// There was no memory.
    #[error("out of memory")]
    NoMemory,
}

impl From<AllocError> for JsonFault {
    ghost use Rattle.std.specs.Prelude.{◌≡◌};
    ghost use Rattle.qe_bson.specs.declared.extended_json.fault.JsonFault.TheVariants.{NoMemory};

    ghost from_gives = { λ _ fault. fault ≡ NoMemory };

    fn from(_: AllocError) -> Self {
        JsonFault::NoMemory
    }
}

impl<T: Drop> From<AllocFailed<T>> for JsonFault {
    ghost use Rattle.std.specs.Prelude.{◌≡◌};
    ghost use Rattle.qe_bson.specs.declared.extended_json.fault.JsonFault.TheVariants.{NoMemory};

    ghost from_gives = { λ _ fault. fault ≡ NoMemory };

    fn from(_: AllocFailed<T>) -> Self {
        JsonFault::NoMemory
    }
}

impl From<NoMemory> for JsonFault {
    ghost use Rattle.std.specs.Prelude.{◌≡◌};
    ghost use Rattle.qe_bson.specs.declared.extended_json.fault.JsonFault.TheVariants.{NoMemory};

    ghost from_gives = { λ _ fault. fault ≡ NoMemory };

    fn from(_: NoMemory) -> Self {
        JsonFault::NoMemory
    }
}
