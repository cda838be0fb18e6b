//! The cells of a document or of a set: how many bytes they have, and whether one can't be written.

ghost use Rattle.std.specs.Prelude.{◌≡◌, IfOk, slice_get};
ghost use Rattle.std.specs.List.{list_any};
ghost use Rattle.std.specs.Option.{option_copied};
ghost use Rattle.qe_value.specs.Measures.{fields_length};
ghost use Rattle.qe_fits.specs.Fits as fits;
ghost use Rattle.qe_fits.specs.Counts as counts;
ghost use Rattle.qe_fits.specs.Sizes as sizes;

use crate::lengths::{FRAME, element_length, value_length};
use crate::payloads::kept_length;
use qe_base::NoMemory;
use qe_field::{Field, is_encrypted};
use qe_plain::{Carried, PlainCell, PlainDocument};
use qe_value::{value_has_zero, value_within};
use std::alloc::Global;

// The levels of a value in a document that stands in the command's.
const MOST_INNER_LEVELS: u32 = 98;

// The element `_id`'s type and name.
const ID: u32 = 5;

// The element of a cell of a field, if the field is there.
fn length_in(alloc: Global, field: Option<&Field>, cell: &PlainCell) -> Result<u32, NoMemory>
    ensures { IfOk result (λ count. count ≡ counts.capped (fields_length (sizes.cell_element cell.now (option_copied field.entry)))) }
{
    match field {
        None => Ok(0),
        Some(field) => {
            let value = kept_length(alloc, &field.kind, cell.value.value())?;
            Ok(element_length(field.path.as_str(), value))
        }
    }
}

// The element of a cell.
fn cell_length(alloc: Global, fields: &[Field], cell: &PlainCell) -> Result<u32, NoMemory>
    ensures { IfOk result (λ count. count ≡ counts.capped (fields_length (sizes.cell_element cell.now (slice_get fields.now cell.now.field)))) }
{
    length_in(alloc, fields.get(cell.field as usize), cell)
}

/// The elements of cells.
pub(crate) fn cells_length(
    alloc: Global,
    fields: &[Field],
    cells: &[PlainCell],
) -> Result<u32, NoMemory>
    ensures { IfOk result (λ count. count ≡ counts.capped (fields_length (sizes.cell_elements fields.now cells.now))) }
{
    let mut length: u32 = 0;
    for cell in cells {
        let next = cell_length(alloc, fields, cell)?;
        length = length.saturating_add(next);
    }
    Ok(length)
}

/// The document to insert.
pub(crate) fn inserted_length(
    alloc: Global,
    fields: &[Field],
    document: &PlainDocument,
) -> Result<u32, NoMemory>
    ensures { IfOk result (λ count. count ≡ counts.capped (sizes.inserted_size fields.now document.now)) }
{
    let cells = cells_length(alloc, fields, document.cells.slice())?;
    Ok(
        value_length(document.id.value())
            .saturating_add(ID + FRAME)
            .saturating_add(cells),
    )
}

fn is_plain(field: Option<&Field>) -> bool
    ensures { result ≡ fits.is_plain (option_copied field.entry) }
{
    match field {
        None => false,
        Some(field) => !is_encrypted(&field.kind),
    }
}

// Whether a value can't stand in a field of a document that stands in the command's.
fn is_bad_value(value: &Carried) -> bool
    ensures { result ≡ fits.is_bad_value value.now }
{
    let value = value.value();
    value_has_zero(value) || !value_within(value, MOST_INNER_LEVELS)
}

fn is_bad_cell(fields: &[Field], cell: &PlainCell) -> bool
    ensures { result ≡ fits.is_bad_cell fields.now cell.now }
{
    is_plain(fields.get(cell.field as usize)) && is_bad_value(&cell.value)
}

/// Whether a cell can't be written.
pub(crate) fn has_bad_cell(fields: &[Field], cells: &[PlainCell]) -> bool
    ensures { result ≡ list_any (fits.is_bad_cell fields.now) cells.now }
{
    for cell in cells {
        if is_bad_cell(fields, cell) {
            return true;
        }
    }
    false
}
