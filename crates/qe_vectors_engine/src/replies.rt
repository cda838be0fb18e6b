//! Replies, and what the journal notes of a command.

use qe_base::{Bytes, Counts, Duplicate, NoMemory, Numbers, Tags};
use qe_document::Value;
use qe_dump::put_document;
use qe_engine::{JournalEntry, Reply, Row};
use qe_field::Field;
use qe_line::Fault;
use qe_refusal::outcome_of;
use qe_store::{Stored, StoredCells};
use std::alloc::Global;

/// Prints a reply: its outcome, and a line for each document or id that it has, as in a dump.
pub fn print_reply(rt: &HostRuntime, fields: &[Field], reply: &Reply) -> Result<(), Fault> {
    println!(rt; "{:?}", outcome_of(reply))?;
    match reply {
        Reply::Found(rows) => print_rows(rt, fields, rows.slice()),
        Reply::Ids(ids) => print_ids(rt, fields, ids.slice()),
        _ => Ok(()),
    }
}

fn print_rows(rt: &HostRuntime, fields: &[Field], rows: &[Row]) -> Result<(), Fault> {
    for row in rows {
        print_document(rt, fields, row.copy()?)?;
    }
    Ok(())
}

fn print_ids(rt: &HostRuntime, fields: &[Field], ids: &[Value]) -> Result<(), Fault> {
    for id in ids {
        print_document(rt, fields, row_of(rt.alloc(), id)?)?;
    }
    Ok(())
}

// A row that has an id alone.
fn row_of(alloc: Global, id: &Value) -> Result<Row, NoMemory> {
    Ok(Row {
        id: id.copy()?,
        cells: StoredCells::new(alloc),
    })
}

// Prints a document without its tags.
fn print_document(rt: &HostRuntime, fields: &[Field], row: Row) -> Result<(), Fault> {
    let text = text_of(rt.alloc(), fields, row)?;
    print_text(rt, text.slice())
}

fn text_of(alloc: Global, fields: &[Field], row: Row) -> Result<Bytes, NoMemory> {
    let stored = Stored {
        id: row.id,
        cells: row.cells,
        tags: Tags::new(alloc),
    };
    let mut text = Bytes::new(alloc);
    put_document(alloc, &mut text, fields, &stored)?;
    Ok(text)
}

/// Prints how many anchors and positions each search found, and of which fields rows were opened.
pub fn print_noted(rt: &HostRuntime, entry: &JournalEntry) -> Result<(), Fault> {
    if !entry.counts.is_empty() {
        print_counts(rt, &entry.counts)?;
    }
    if !entry.opened.is_empty() {
        print_opened(rt, &entry.opened)?;
    }
    Ok(())
}

fn print_counts(rt: &HostRuntime, counts: &Counts) -> Result<(), Fault> {
    print!(rt; "counts")?;
    for count in counts.slice() {
        print!(rt; " {}:{}", count.hop, count.positions)?;
    }
    println!(rt)?;
    Ok(())
}

fn print_opened(rt: &HostRuntime, opened: &Numbers) -> Result<(), Fault> {
    print!(rt; "opened")?;
    for field in opened.slice() {
        print!(rt; " {field}")?;
    }
    println!(rt)?;
    Ok(())
}

/// Prints text.
pub fn print_text(rt: &HostRuntime, text: &[u8]) -> Result<(), Fault> {
    match str::from_utf8(text) {
        Ok(text) => {
            print!(rt; "{text}")?;
            Ok(())
        }
        Err(_) => Err(Fault::Refused),
    }
}
