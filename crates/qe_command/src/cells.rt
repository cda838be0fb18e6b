//! Values of fields, as they are sent.

ghost use Rattle.std.specs.Prelude.{◌≡◌, [], ◌∷◌, ◌++◌, IfOk, length, OnOk, OnErr};
ghost use Rattle.qe_store.specs.Cells.{AreRising};

use qe_base::{Duplicate, NoMemory};
use qe_document::Value;
use qe_payload::InsertPayload;
use std::alloc::Global;
use std::marker::Model;

/// What a client sends for a field.
#[derive(Drop)]
pub enum SentCell {
    /// A plain field's value.
    Plain(Value),
    /// An encrypted field's tokens and sealed value.
    Payload(InsertPayload),
}

/// Cells by the number of their field, in rising order of these numbers.
#[derive(Drop)]
pub struct SentCells {
    alloc: Global,
    cells: Vec<(u32, SentCell)>,
}

impl Model for SentCells {
    ghost use Rattle.std.specs.Prelude.{List, ℕ};
    ghost use Rattle.qe_command.specs.declared.cells.SentCell.{SentCell};
    ghost use Rattle.qe_command.specs.contracts.cells.SentCell as cell;
    ghost use Rattle.std.specs.Coded.{coded_list, coded×, coded_ℕ};

    ghost Value = { List (ℕ × SentCell) };

    ghost coded = { coded_list (coded× coded_ℕ cell.the_row.coded) };

    ghost use Rattle.qe_store.specs.Cells.{AreRising};

    ghost view = { λ a. a.cells.items };

    ghost invariant = { λ a. AreRising a.cells.items };
}

impl SentCells {
    /// No cells.
    pub fn new(alloc: Global) -> Self
        ensures { result ≡ [] }
    {
        SentCells {
            alloc,
            cells: Vec::new(alloc),
        }
    }

    /// The number of cells.
    pub fn len(&self) -> usize
        ensures count { result ≡ length self.now }
        ensures rising { AreRising self.now }
    {
        self.cells.len()
    }

    /// The cells.
    pub fn slice(&self) -> &[(u32, SentCell)]
        ensures cells { result.now ≡ self.now }
        ensures rising { AreRising self.now }
    {
        self.cells.as_slice()
    }

    /// Adds a cell of a field behind all others.
    pub fn push(&mut self, item: (u32, SentCell)) -> Result<(), NoMemory>
        requires { AreRising (self.old ++ item ∷ []) }
        ensures ok { OnOk result (self.new ≡ self.old ++ item ∷ []) }
        ensures err { OnErr result (self.new ≡ self.old) }
    {
        self.cells.push(item)?;
        Ok(())
    }
}

impl Duplicate for SentCell {
    fn copy(&self) -> Result<Self, NoMemory> {
        match self {
            SentCell::Plain(value) => Ok(SentCell::Plain(value.copy()?)),
            SentCell::Payload(payload) => Ok(SentCell::Payload(payload.copy()?)),
        }
    }
}

impl Duplicate for SentCells {
    fn copy(&self) -> Result<Self, NoMemory> {
        Ok(SentCells {
            alloc: self.alloc,
            cells: copy_cells(self.alloc, &self.cells)?,
        })
    }
}

// The same cells again.
fn copy_cells(alloc: Global, cells: &[(u32, SentCell)]) -> Result<Vec<(u32, SentCell)>, NoMemory>
    ensures { IfOk result (λ others. others.items ≡ cells.now) }
{
    let mut others = Vec::with_capacity(alloc, cells.len())?;
    for (field, cell) in cells {
        others.push((*field, cell.copy()?))?;
    }
    Ok(others)
}
