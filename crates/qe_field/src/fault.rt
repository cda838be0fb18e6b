//! Why a document is no schema.

use qe_base::NoMemory;
use qe_edges::DomainFault;
use thiserror::Error;

/// Why a document is no schema: the first fault, with the number of its field.
#[derive(Clone, Copy, Debug, PartialEq, Eq, Error)]
pub enum SchemaFault {
    /// It isn't the one name `fields` with an array.
    #[error("not the one name `fields` with an array")]
    NotFields,
    /// It has so many fields, more than 64.
    #[error("{0} fields, more than 64")]
    TooManyFields(u64),
    /// The field object lacks a name, has an unknown one, or a value of another form.
    #[error("field {0} has not the form of a field")]
    BadForm(u32),
    /// The path isn't 1 to 64 ASCII letters, digits and `_`, beginning with a letter.
    #[error("field {0} has a bad path")]
    BadPath(u32),
    /// Two fields have one path.
    #[error("fields {first} and {second} have one path")]
    DuplicateField { first: u32, second: u32 },
    /// The type is none that the query allows.
    #[error("field {0} has a bad type")]
    BadType(u32),
    /// The key id is no UUID.
    #[error("field {0} has a bad key id")]
    BadKeyId(u32),
    /// Two fields have one key id.
    #[error("fields {first} and {second} have one key id")]
    DuplicateKeyId { first: u32, second: u32 },
    /// The contention or the greatest one isn't 0 to 1,000, or the greatest is the smaller.
    #[error("field {0} has a bad contention")]
    BadContention(u32),
    /// The rules of a range field make no domain.
    #[error("field {field}: {fault}")]
    BadDomain { field: u32, fault: DomainFault },
    /// There was no memory.
    #[error("there is not enough memory")]
    NoMemory,
}

impl From<NoMemory> for SchemaFault {
    ghost use Rattle.std.specs.Prelude.{◌≡◌};
    ghost use Rattle.qe_field.specs.declared.fault.SchemaFault.TheVariants as s;

    ghost from_gives = { λ _ fault. fault ≡ s.NoMemory };

    fn from(_: NoMemory) -> Self {
        SchemaFault::NoMemory
    }
}
