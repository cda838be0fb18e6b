//! A document as it is stored: its id, its cells and its tags.

ghost use Rattle.std.specs.Prelude.{◌≡◌, [], ◌∷◌, ◌++◌, IfOk, length, OnOk, OnErr};
ghost use Rattle.qe_store.specs.Cells.{AreRising};

use qe_base::{Bytes, Duplicate, Listing, NoMemory, Tags};
use qe_document::Value;
use std::alloc::Global;
use std::marker::Model;

/// What stands in a field of a stored document.
#[derive(Drop)]
pub enum Cell {
    /// A plain value.
    Plain(Value),
    /// The bytes of an indexed value.
    Indexed(Bytes),
}

/// Cells by the number of their field, in rising order of these numbers.
#[derive(Drop)]
pub struct StoredCells {
    alloc: Global,
    cells: Vec<(u32, Cell)>,
}

/// A document as it is stored.
#[derive(Drop)]
pub struct Stored {
    /// The document's id.
    pub id: Value,
    /// What stands in its fields.
    pub cells: StoredCells,
    /// By which it is found.
    pub tags: Tags,
}

/// One condition of a search: the document has that id, or one of those tags.
#[derive(Drop)]
pub enum TermSet {
    /// The document's id is that one, in type and bytes.
    Id(Value),
    /// One of the document's tags is among these.
    Tags(Tags),
}

/// Conditions that a document meets all.
pub type TermSets = Listing<TermSet>;

impl Model for StoredCells {
    ghost use Rattle.std.specs.Prelude.{List, ℕ};
    ghost use Rattle.qe_store.specs.declared.stored.Cell.{Cell};
    ghost use Rattle.qe_store.specs.contracts.stored.Cell as cell;
    ghost use Rattle.std.specs.Coded.{coded_list, coded×, coded_ℕ};

    ghost Value = { List (ℕ × Cell) };

    ghost coded = { coded_list (coded× coded_ℕ cell.the_row.coded) };

    ghost use Rattle.qe_store.specs.Cells.{AreRising};

    ghost view = { λ a. a.cells.items };

    ghost invariant = { λ a. AreRising a.cells.items };
}

impl StoredCells {
    /// No cells.
    pub fn new(alloc: Global) -> Self
        ensures { result ≡ [] }
    {
        StoredCells {
            alloc,
            cells: Vec::new(alloc),
        }
    }

    /// The number of cells.
    pub fn len(&self) -> usize
        ensures count { result ≡ length self.now }
        ensures rising { AreRising self.now }
    {
        self.cells.len()
    }

    /// The cells.
    pub fn slice(&self) -> &[(u32, Cell)]
        ensures cells { result.now ≡ self.now }
        ensures rising { AreRising self.now }
    {
        self.cells.as_slice()
    }

    /// Adds a cell of a field behind all others.
    pub fn push(&mut self, item: (u32, Cell)) -> Result<(), NoMemory>
        requires { AreRising (self.old ++ item ∷ []) }
        ensures ok { OnOk result (self.new ≡ self.old ++ item ∷ []) }
        ensures err { OnErr result (self.new ≡ self.old) }
    {
        self.cells.push(item)?;
        Ok(())
    }
}

impl Duplicate for Cell {
    fn copy(&self) -> Result<Self, NoMemory> {
        match self {
            Cell::Plain(value) => Ok(Cell::Plain(value.copy()?)),
            Cell::Indexed(bytes) => Ok(Cell::Indexed(bytes.copy()?)),
        }
    }
}

impl Duplicate for StoredCells {
    fn copy(&self) -> Result<Self, NoMemory> {
        Ok(StoredCells {
            alloc: self.alloc,
            cells: copy_cells(self.alloc, &self.cells)?,
        })
    }
}

impl Duplicate for Stored {
    fn copy(&self) -> Result<Self, NoMemory> {
        Ok(Stored {
            id: self.id.copy()?,
            cells: self.cells.copy()?,
            tags: self.tags.copy()?,
        })
    }
}

impl Duplicate for TermSet {
    fn copy(&self) -> Result<Self, NoMemory> {
        match self {
            TermSet::Id(id) => Ok(TermSet::Id(id.copy()?)),
            TermSet::Tags(tags) => Ok(TermSet::Tags(tags.copy()?)),
        }
    }
}

// The same cells again.
fn copy_cells(alloc: Global, cells: &[(u32, Cell)]) -> Result<Vec<(u32, Cell)>, NoMemory>
    ensures { IfOk result (λ others. others.items ≡ cells.now) }
{
    let mut others = Vec::with_capacity(alloc, cells.len())?;
    for (field, cell) in cells {
        others.push((*field, cell.copy()?))?;
    }
    Ok(others)
}
