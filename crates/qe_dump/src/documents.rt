//! Documents.

ghost use Rattle.std.specs.Prelude.{◌≡◌, ◌++◌, ◌∷◌, codes, IfOk, OnOk, string_bytes, flat_map};
ghost use Rattle.qe_value.specs.Views.{plain};
ghost use Rattle.qe_value.specs.Types.{type_byte};
ghost use Rattle.qe_value.specs.Spelling.{spelled};
ghost use Rattle.qe_encode.specs.Writing.{value_encoded};
ghost use Rattle.qe_dump.specs.Dump as dump;

use crate::lines::{path_of, put_line, spaced};
use crate::rows::put_ids;
use qe_base::{Bytes, NoMemory};
use qe_bson::{JsonFault, to_json};
use qe_document::{EncodeFault, Value, value_bytes, value_kind};
use qe_field::Field;
use qe_store::{Cell, Stored};
use std::alloc::Global;

// The JSON of an id.
fn value_json(alloc: Global, value: &Value) -> Result<String, NoMemory>
    ensures { IfOk result (λ text. string_bytes text ≡ dump.value_json value.now) }
{
    match to_json(alloc, value) {
        Ok(json) => Ok(json.to_string(alloc)?),
        Err(JsonFault::NoMemory) => Err(NoMemory),
        Err(_) => Ok(String::new(alloc)),
    }
}

// The bytes of a plain value.
fn plain_bytes(alloc: Global, value: &Value) -> Result<Bytes, NoMemory>
    ensures { IfOk result (λ bytes. bytes ≡ dump.bytes_or_none (value_encoded (plain value.now))) }
{
    match value_bytes(alloc, value) {
        Ok(bytes) => Ok(bytes),
        Err(EncodeFault::NoMemory) => Err(NoMemory),
        Err(_) => Ok(Bytes::new(alloc)),
    }
}

// The bytes of what stands in a field: those of an indexed value, or a plain value's type and bytes.
fn cell_bytes(alloc: Global, cell: &Cell) -> Result<Bytes, NoMemory>
    ensures { IfOk result (λ bytes. bytes ≡ dump.cell_bytes cell.now) }
{
    match cell {
        Cell::Plain(value) => {
            let mut bytes = Bytes::new(alloc);
            bytes.push(value_kind(value))?;
            bytes.extend(plain_bytes(alloc, value)?.slice())?;
            Ok(bytes)
        }
        Cell::Indexed(bytes) => Ok(Bytes::from_slice(alloc, bytes.slice())?),
    }
}

// Adds what stands in a field.
fn put_cell(
    alloc: Global,
    out: &mut Bytes,
    fields: &[Field],
    number: u32,
    cell: &Cell,
) -> Result<(), NoMemory>
    ensures { OnOk result (out.new ≡ out.old ++ dump.cell_line fields.now (number, cell.now)) }
{
    let bytes = cell_bytes(alloc, cell)?;
    let digits = hex::encode(alloc, bytes.slice())?;
    let text = spaced(alloc, path_of(fields, number), digits.as_str())?;
    put_line(out, "f", text.as_str())
}

// Adds what stands in the fields of a document.
fn put_cells(
    alloc: Global,
    out: &mut Bytes,
    fields: &[Field],
    cells: &[(u32, Cell)],
) -> Result<(), NoMemory>
    ensures { OnOk result (out.new ≡ out.old ++ flat_map (dump.cell_line fields.now) cells.now) }
{
    for (number, cell) in cells {
        put_cell(alloc, out, fields, *number, cell)?;
    }
    Ok(())
}

/// Adds a document: `doc ID` with the id as JSON, `f PATH BYTES` for each cell, and `t TAG` for each tag.
pub fn put_document(
    alloc: Global,
    out: &mut Bytes,
    fields: &[Field],
    stored: &Stored,
) -> Result<(), NoMemory>
    ensures { OnOk result (out.new ≡ out.old ++ dump.document_lines fields.now stored.now) }
{
    let id = value_json(alloc, &stored.id)?;
    put_line(out, "doc", id.as_str())?;
    put_cells(alloc, out, fields, stored.cells.slice())?;
    put_ids(alloc, out, "t", stored.tags.slice())
}
