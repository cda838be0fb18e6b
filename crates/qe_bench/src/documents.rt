//! Documents to read and to write.

use crate::work::{Outcome, last_block};
use qe_base::{Bytes, NoMemory, Text};
use qe_document::{Document, Value, decode, encode};
use std::alloc::Global;

/// A document of 1,000 fields of mixed types.
pub fn mixed(alloc: Global) -> Result<Document, NoMemory> {
    let mut document = Document::new(alloc);
    for i in 0..1000 {
        let name = format!(in alloc; "field{i}")?;
        let name = Text::of(alloc, name.as_str())?;
        document.push(name, field(alloc, i)?).map_err(|_| NoMemory)?;
    }
    Ok(document)
}

fn field(alloc: Global, i: u32) -> Result<Value, NoMemory> {
    let bytes = u64::from(i).to_le_bytes();
    match i % 7 {
        0 => Ok(Value::Int32(5)),
        1 => Ok(Value::Int64(i64::from(i))),
        2 => Ok(Value::Double(bytes)),
        3 => Ok(Value::Bool(true)),
        4 => Ok(Value::Str(Text::of(alloc, "the text of a field")?)),
        5 => Ok(Value::Binary {
            subtype: 0,
            bytes: Bytes::from_slice(alloc, &[7; 32])?,
        }),
        _ => Ok(Value::Null),
    }
}

/// A document of 100 levels.
pub fn nested(alloc: Global) -> Result<Document, NoMemory> {
    let mut document = Document::new(alloc);
    for _ in 1..100 {
        let mut outer = Document::new(alloc);
        let name = Text::of(alloc, "level")?;
        outer
            .push(name, Value::Doc(document))
            .map_err(|_| NoMemory)?;
        document = outer;
    }
    Ok(document)
}

/// Reads a document's bytes so many times.
pub fn decoded(alloc: Global, document: &Document, turns: u64) -> Result<Outcome, NoMemory> {
    let bytes = encode(alloc, document).map_err(|_| NoMemory)?;
    let mut read = 0;
    for _ in 0..turns {
        let (_, used) = decode(alloc, bytes.slice()).map_err(|_| NoMemory)?;
        read = used;
    }
    Ok(Outcome {
        last: last_block(&bytes.slice()[..read.min(bytes.len())]),
        bytes: bytes.len(),
    })
}

/// Writes a document so many times.
pub fn encoded(alloc: Global, document: &Document, turns: u64) -> Result<Outcome, NoMemory> {
    let mut written = Bytes::new(alloc);
    for _ in 0..turns {
        let next = encode(alloc, document).map_err(|_| NoMemory)?;
        written = next;
    }
    Ok(Outcome {
        last: last_block(written.slice()),
        bytes: written.len(),
    })
}
