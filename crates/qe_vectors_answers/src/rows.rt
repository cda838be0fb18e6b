//! A schema, keys and rows, from words of hex digits.

use qe_base::{Bytes, KeyList};
use qe_document::{Value, decode};
use qe_line::{Fault, accepted, bytes_of};
use qe_protocol::{Reply, Row, Rows};
use qe_schema::Schema;
use qe_store::{Cell, StoredCells};
use std::alloc::Global;

/// The first word of a line, and what stands behind it.
pub fn split_first(line: &[u8]) -> Result<(&str, &str), Fault> {
    let Ok(line) = str::from_utf8(line) else {
        return Err(Fault::Refused);
    };
    match line.split_once(' ') {
        Some(words) => Ok(words),
        None => Err(Fault::Refused),
    }
}

/// The schema of a document.
pub fn schema_of(alloc: Global, digits: &str) -> Result<Schema, Fault> {
    let bytes = hex::decode(alloc, digits.as_bytes())?;
    let (document, _) = accepted(decode(alloc, bytes.as_slice()))?;
    accepted(Schema::read(alloc, &document))
}

/// The keys of words.
pub fn keys_of(alloc: Global, words: &str) -> Result<KeyList, Fault> {
    let mut keys = KeyList::new(alloc);
    for word in words.split(' ') {
        keys.push(bytes_of::<96>(word)?)?;
    }
    Ok(keys)
}

/// The reply that the rows of words were found.
pub fn found_of(alloc: Global, words: &str) -> Result<Reply, Fault> {
    let mut rows = Rows::new(alloc);
    for word in words.split(' ') {
        rows.push(row_of(alloc, word)?)?;
    }
    Ok(Reply::Found(rows))
}

fn row_of(alloc: Global, word: &str) -> Result<Row, Fault> {
    let cells = cells_of(alloc, word)?;
    Ok(Row {
        id: Value::Int32(1),
        cells,
    })
}

fn cells_of(alloc: Global, word: &str) -> Result<StoredCells, Fault> {
    let (field, stored) = cell_of(alloc, word)?;
    let mut cells = StoredCells::new(alloc);
    cells.push((field, Cell::Indexed(stored)))?;
    Ok(cells)
}

fn cell_of(alloc: Global, word: &str) -> Result<(u32, Bytes), Fault> {
    let Some((field, digits)) = word.split_once(',') else {
        return Err(Fault::Refused);
    };
    let Ok(field) = field.parse::<u32>() else {
        return Err(Fault::Refused);
    };
    let stored = hex::decode(alloc, digits.as_bytes())?;
    Ok((field, Bytes::from_slice(alloc, stored.as_slice())?))
}
