//! The values of a command, in the order of their fields.

ghost use Rattle.std.specs.Prelude.{◌≡◌, ◌≤◌, ◌+◌, ◌*◌, ◌-◌, ◌^◌, [], ◌∷◌, length, drop, IfOk, All};
ghost use Rattle.qe_store.specs.Cells.{AreRising};
ghost use Rattle.qe_command.specs.Nonces.{cell_nonces, cells_nonces};
ghost use Rattle.qe_indexing.specs.Plans.{index_in};
ghost use Rattle.qe_indexing.specs.Cells.{CanStore, CellPlanned, CellsPlanned};

use crate::items::nonces_from;
use crate::plan::{Plan, Standing};
use crate::values::{index_value, item_count};
use qe_base::{Duplicate, NoMemory};
use qe_command::{SentCell, SentCells};
use qe_store::{Cell, StoredCells};

/// How many nonces a cell takes.
fn nonces_of(cell: &SentCell) -> usize
    requires { cell_nonces cell.now ≤ 2 ^ 64 - 1 }
    ensures { result ≡ cell_nonces cell.now }
{
    match cell {
        SentCell::Plain(_) => 0,
        SentCell::Payload(payload) => 1 + 2 * item_count(payload),
    }
}

/// Plans a cell of a field, and gives what is stored.
fn index_cell(
    standing: &Standing,
    field: u32,
    cell: &SentCell,
    nonces: &[[u8; 16]],
    plan: &mut Plan,
) -> Result<Cell, NoMemory>
    requires storable { CanStore cell.now }
    requires nonces { cell_nonces cell.now ≤ length nonces.now }
    ensures { IfOk result (CellPlanned (index_in standing.now) field cell.now nonces.now plan.old plan.new) }
{
    match cell {
        SentCell::Plain(value) => Ok(Cell::Plain(value.copy()?)),
        SentCell::Payload(payload) => Ok(Cell::Indexed(index_value(
            standing, field, payload, nonces, plan,
        )?)),
    }
}

/// Plans the values of a command, and gives what is stored, by the fields' numbers.
pub fn index_cells(
    standing: &Standing,
    cells: &SentCells,
    nonces: &[[u8; 16]],
    plan: &mut Plan,
) -> Result<StoredCells, NoMemory>
    requires storable { All (λ cell. CanStore cell.1) cells.now }
    requires nonces { cells_nonces cells.now ≤ length nonces.now }
    ensures { IfOk result (CellsPlanned (index_in standing.now) cells.now nonces.now plan.old plan.new) }
{
    index_all(standing, cells.slice(), nonces, plan)
}

fn index_all(
    standing: &Standing,
    cells: &[(u32, SentCell)],
    nonces: &[[u8; 16]],
    plan: &mut Plan,
) -> Result<StoredCells, NoMemory>
    requires rising { AreRising cells.now }
    requires storable { All (λ cell. CanStore cell.1) cells.now }
    requires nonces { cells_nonces cells.now ≤ length nonces.now }
    ensures { IfOk result (CellsPlanned (index_in standing.now) cells.now nonces.now plan.old plan.new) }
{
    let mut made = StoredCells::new(standing.alloc);
    let mut place = 0;
    for (field, cell) in cells {
        let stored = index_cell(standing, *field, cell, nonces_from(nonces, place), plan)?;
        made.push((*field, stored))?;
        place += nonces_of(cell);
    }
    Ok(made)
}
