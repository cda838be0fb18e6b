//! Rows, and identifiers.

ghost use Rattle.std.specs.Prelude.{◌≡◌, ◌++◌, OnOk, Some, flat_map};
ghost use Rattle.qe_dump.specs.Dump as dump;

use crate::lines::{path_of, put_line, spaced};
use qe_base::{Bytes, NoMemory};
use qe_ecoc::Entry;
use qe_field::Field;
use std::alloc::Global;

// Adds an anchor: `a ID VALUE`.
fn put_anchor(
    alloc: Global,
    out: &mut Bytes,
    id: &[u8; 32],
    value: &[u8; 32],
) -> Result<(), NoMemory>
    ensures { OnOk result (out.new ≡ out.old ++ dump.row_text id.now (Some value.now)) }
{
    let id = hex::encode(alloc, id.as_slice())?;
    let value = hex::encode(alloc, value.as_slice())?;
    let text = spaced(alloc, id.as_str(), value.as_str())?;
    put_line(out, "a", text.as_str())
}

// Adds a row: `p ID`, or `a ID VALUE`.
fn put_row(
    alloc: Global,
    out: &mut Bytes,
    id: &[u8; 32],
    value: &Option<[u8; 32]>,
) -> Result<(), NoMemory>
    ensures { OnOk result (out.new ≡ out.old ++ dump.row_text id.now value.now) }
{
    match value {
        None => put_id(alloc, out, "p", id),
        Some(value) => put_anchor(alloc, out, id, value),
    }
}

/// Adds rows: `p ID` for a position, `a ID VALUE` for an anchor.
pub fn put_rows(
    alloc: Global,
    out: &mut Bytes,
    rows: &[([u8; 32], Option<[u8; 32]>)],
) -> Result<(), NoMemory>
    ensures { OnOk result (out.new ≡ out.old ++ flat_map dump.row_line rows.now) }
{
    for (id, value) in rows {
        put_row(alloc, out, id, value)?;
    }
    Ok(())
}

// Adds a row for compaction, behind a word.
fn put_entry(
    alloc: Global,
    out: &mut Bytes,
    fields: &[Field],
    word: &str,
    entry: &Entry,
) -> Result<(), NoMemory>
    ensures { OnOk result (out.new ≡ out.old ++ dump.entry_line fields.now word.now entry.now) }
{
    let digits = hex::encode(alloc, entry.value.bytes())?;
    let text = spaced(alloc, path_of(fields, entry.field), digits.as_str())?;
    put_line(out, word, text.as_str())
}

/// Adds rows for compaction, each behind a word: `WORD PATH VALUE`.
pub fn put_entries(
    alloc: Global,
    out: &mut Bytes,
    fields: &[Field],
    word: &str,
    entries: &[Entry],
) -> Result<(), NoMemory>
    ensures { OnOk result (out.new ≡ out.old ++ flat_map (dump.entry_line fields.now word.now) entries.now) }
{
    for entry in entries {
        put_entry(alloc, out, fields, word, entry)?;
    }
    Ok(())
}

// Adds an identifier behind a word.
fn put_id(alloc: Global, out: &mut Bytes, word: &str, id: &[u8; 32]) -> Result<(), NoMemory>
    ensures { OnOk result (out.new ≡ out.old ++ dump.id_line word.now id.now) }
{
    let digits = hex::encode(alloc, id.as_slice())?;
    put_line(out, word, digits.as_str())
}

/// Adds identifiers, each behind a word: `WORD ID`.
pub fn put_ids(alloc: Global, out: &mut Bytes, word: &str, ids: &[[u8; 32]]) -> Result<(), NoMemory>
    ensures { OnOk result (out.new ≡ out.old ++ flat_map (dump.id_line word.now) ids.now) }
{
    for id in ids {
        put_id(alloc, out, word, id)?;
    }
    Ok(())
}
