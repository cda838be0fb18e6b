//! Fields.

use qe_base::{Duplicate, NoMemory, Text};
use qe_edges::Domain;

/// How a field is kept.
#[derive(Clone, Copy, Debug, PartialEq, Eq)]
pub enum FieldKind {
    /// As it is.
    Plain,
    /// Encrypted, and searched for equality.
    Equality {
        key_id: [u8; 16],
        value_kind: u8,
        contention: u64,
        greatest: u64,
    },
    /// Encrypted, and searched for intervals of integers.
    Range {
        key_id: [u8; 16],
        value_kind: u8,
        contention: u64,
        greatest: u64,
        domain: Domain,
    },
}

/// A field of the documents: its name, and how it is kept.
#[derive(Drop)]
pub struct Field {
    pub path: Text,
    pub kind: FieldKind,
}

impl Duplicate for Field {
    fn copy(&self) -> Result<Self, NoMemory> {
        let path = self.path.copy()?;
        Ok(Field {
            path,
            kind: self.kind,
        })
    }
}
