//! Documents that a find answers.

use qe_base::{Duplicate, Listing, NoMemory};
use qe_document::Value;
use qe_store::StoredCells;

/// A document as it is stored, without its tags.
#[derive(Drop)]
pub struct Row {
    /// The document's id.
    pub id: Value,
    /// What stands in its fields.
    pub cells: StoredCells,
}

/// Documents in the order of insertion.
pub type Rows = Listing<Row>;

impl Duplicate for Row {
    fn copy(&self) -> Result<Self, NoMemory> {
        Ok(Row {
            id: self.id.copy()?,
            cells: self.cells.copy()?,
        })
    }
}
