//! The tags of what is stored.

ghost use Rattle.std.specs.Prelude.{◌≡◌, ◌++◌, OnOk, IfOk};
ghost use Rattle.qe_indexed.specs.Reading.{indexed_at};
ghost use Rattle.qe_protocol.specs.Indexing.{value_tags, cell_tags, tags_of};

use qe_base::{NoMemory, Tags};
use qe_indexed::{IndexedFault, IndexedValue};
use qe_store::{Cell, StoredCells};
use std::alloc::Global;

/// Adds the tags of the blocks of an indexed value; other bytes have none.
fn value_tags(alloc: Global, bytes: &[u8]) -> Result<Tags, NoMemory>
    ensures { IfOk result (λ tags. tags ≡ value_tags (indexed_at bytes.now)) }
{
    match IndexedValue::read(alloc, bytes) {
        Ok(value) => value.tags(alloc),
        Err(IndexedFault::NoMemory) => Err(NoMemory),
        Err(_) => Ok(Tags::new(alloc)),
    }
}

/// The tags of a cell.
fn cell_tags(alloc: Global, cell: &Cell) -> Result<Tags, NoMemory>
    ensures { IfOk result (λ tags. tags ≡ cell_tags cell.now) }
{
    match cell {
        Cell::Plain(_) => Ok(Tags::new(alloc)),
        Cell::Indexed(bytes) => value_tags(alloc, bytes.slice()),
    }
}

/// The tags of a document's cells, in the order of cells and blocks.
pub fn tags_of(alloc: Global, cells: &StoredCells) -> Result<Tags, NoMemory>
    ensures { IfOk result (λ tags. tags ≡ tags_of cells.now) }
{
    tags_in(alloc, cells.slice())
}

fn tags_in(alloc: Global, cells: &[(u32, Cell)]) -> Result<Tags, NoMemory>
    ensures { IfOk result (λ tags. tags ≡ tags_of cells.now) }
{
    let mut tags = Tags::new(alloc);
    for (_, cell) in cells {
        let more = cell_tags(alloc, cell)?;
        tags.extend(more.slice())?;
    }
    Ok(tags)
}
