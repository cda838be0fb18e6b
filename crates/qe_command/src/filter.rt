//! What a client asks for.

use qe_base::{Duplicate, Listing, NoMemory};
use qe_document::Value;
use qe_payload::{FindEqual, FindRange};

/// One condition of a filter.
#[derive(Drop)]
pub enum SentTerm {
    /// The document has this id.
    Id(Value),
    /// The document's field has a value, whose tokens these are.
    Equal {
        /// The number of an equality field.
        field: u32,
        payload: FindEqual,
    },
    /// The document's field has a number of an interval, whose edges' tokens these are.
    Range {
        /// The number of a range field.
        field: u32,
        payload: FindRange,
    },
}

/// Conditions that must all hold, in the order in which they are searched.
pub type SentFilter = Listing<SentTerm>;

impl Duplicate for SentTerm {
    fn copy(&self) -> Result<Self, NoMemory> {
        match self {
            SentTerm::Id(id) => Ok(SentTerm::Id(id.copy()?)),
            SentTerm::Equal { field, payload } => Ok(SentTerm::Equal {
                field: *field,
                payload: payload.copy()?,
            }),
            SentTerm::Range { field, payload } => Ok(SentTerm::Range {
                field: *field,
                payload: payload.copy()?,
            }),
        }
    }
}
