//! New cells of a document, in the place of its own or between them.

ghost use Rattle.std.specs.Prelude.{◌≡◌, ◌≤◌, ℕ, List, [], ◌∷◌, length, drop, IfOk, IfSome, IfNone};
ghost use Rattle.qe_store.specs.Cells.{AreRising};
ghost use Rattle.qe_protocol.specs.Documents.{put_cells};
ghost use Rattle.qe_store.specs.declared.stored.Cell as stored;
ghost use Rattle.qe_indexing.specs.Merge.{Rises, IsNextCell};

use qe_base::{Duplicate, NoMemory};
use qe_store::{Cell, StoredCells};
use std::alloc::Global;

/// The cell that comes first of two lists, and how many each of them loses by it.
#[derive(Clone, Copy)]
struct NextCell<'a> {
    cell: &'a (u32, Cell),
    old: usize,
    new: usize,
}

// The cells from a place on.
fn cells_from(cells: &[(u32, Cell)], place: usize) -> &[(u32, Cell)]
    requires place { place ≤ length cells.now }
    requires rising { AreRising cells.now }
    ensures cells { result.now ≡ drop place cells.now }
    ensures rising { AreRising result.now }
{
    &cells[place..]
}

// Which of an old and of a new cell comes first, whatever cells are behind them: a new one takes the place of an old one
// of its field.
fn first_of<'a>(old: &'a (u32, Cell), new: &'a (u32, Cell)) -> NextCell<'a>
    ensures { (olds news : List (ℕ × stored.Cell)) → Rises (old.now ∷ olds) → Rises (new.now ∷ news)
        → IsNextCell (old.now ∷ olds) (new.now ∷ news) result.cell.now result.old result.new }
{
    if old.0 < new.0 {
        return NextCell {
            cell: old,
            old: 1,
            new: 0,
        };
    }
    if old.0 == new.0 {
        return NextCell {
            cell: new,
            old: 1,
            new: 1,
        };
    }
    NextCell {
        cell: new,
        old: 0,
        new: 1,
    }
}

// The cell that comes first.
fn next_cell<'a>(old: &'a [(u32, Cell)], new: &'a [(u32, Cell)]) -> Option<NextCell<'a>>
    requires old { AreRising old.now }
    requires new { AreRising new.now }
    ensures some { IfSome result (λ next. IsNextCell old.now new.now next.cell.now next.old next.new) }
    ensures none { IfNone result (put_cells old.now new.now ≡ []) }
{
    let Some(put) = new.first() else {
        let cell = old.first()?;
        return Some(NextCell {
            cell,
            old: 1,
            new: 0,
        });
    };
    match old.first() {
        Some(cell) => Some(first_of(cell, put)),
        None => Some(NextCell {
            cell: put,
            old: 0,
            new: 1,
        }),
    }
}

/// The cells of a document, with new ones put among them.
pub fn put_cells(
    alloc: Global,
    cells: &StoredCells,
    set: &StoredCells,
) -> Result<StoredCells, NoMemory>
    ensures { IfOk result (λ all. all ≡ put_cells cells.now set.now) }
{
    merge(alloc, cells.slice(), set.slice())
}

fn merge(alloc: Global, cells: &[(u32, Cell)], set: &[(u32, Cell)]) -> Result<StoredCells, NoMemory>
    requires cells { AreRising cells.now }
    requires set { AreRising set.now }
    ensures { IfOk result (λ all. all ≡ put_cells cells.now set.now) }
{
    let mut all = StoredCells::new(alloc);
    let mut old = 0;
    let mut new = 0;
    while let Some(next) = next_cell(cells_from(cells, old), cells_from(set, new)) {
        all.push((next.cell.0, next.cell.1.copy()?))?;
        old += next.old;
        new += next.new;
    }
    Ok(all)
}
