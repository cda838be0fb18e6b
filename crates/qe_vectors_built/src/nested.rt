//! Documents of many levels and of many bytes, read and written.

use qe_base::{Bytes, NoMemory, Text};
use qe_document::{BsonFault, Document, EncodeFault, Value, Values, decode, encode};
use qe_line::{Count, Fault, Hex, accepted, print_answer};
use std::alloc::Global;

// How many levels, the head of each, and the innermost one's length.
const LEVELS: [(u32, [u8; 3], u8); 6] = [
    (2, [3, 0x61, 0], 5),
    (100, [3, 0x61, 0], 5),
    (101, [3, 0x61, 0], 5),
    (101, [4, 0x30, 0], 5),
    (100, [4, 0x30, 0], 5),
    (101, [3, 0x61, 0], 4),
];

/// Prints what is read of levels of documents, and what is written of long and of deep ones.
pub fn print(rt: &HostRuntime) -> Result<(), Fault> {
    for (levels, item, least) in LEVELS {
        print_levels(rt, levels, &item, least)?;
    }
    print_deep(rt, 100)?;
    print_deep(rt, 101)?;
    print_arrays(rt, 99)?;
    print_arrays(rt, 100)?;
    print_zeros(rt, 16_777_203)?;
    print_zeros(rt, 16_777_204)?;
    print_before_zero(rt)?;
    print_inner_zero(rt)?;
    print_before_deep(rt)
}

fn print_levels(rt: &HostRuntime, levels: u32, item: &[u8; 3], least: u8) -> Result<(), Fault> {
    let bytes = levels_of(rt.alloc(), levels, item, least)?;
    print_answer(
        rt,
        format_args!("{levels} levels of {}, {least}", Hex(item)),
        used_of(rt.alloc(), bytes.slice()),
    )
}

fn used_of(alloc: Global, bytes: &[u8]) -> Result<Count<'static>, BsonFault> {
    let (_, used) = decode(alloc, bytes)?;
    Ok(Count(used, "bytes"))
}

// Documents of one item inside each other, the innermost of a length.
fn levels_of(alloc: Global, levels: u32, item: &[u8; 3], least: u8) -> Result<Bytes, NoMemory> {
    let mut bytes = Bytes::new(alloc);
    push_heads(&mut bytes, levels, item)?;
    bytes.extend(&[least, 0, 0, 0, 0])?;
    push_ends(&mut bytes, levels)?;
    Ok(bytes)
}

// The head of each level but the innermost one, each 8 bytes shorter than the one before.
fn push_heads(bytes: &mut Bytes, levels: u32, item: &[u8; 3]) -> Result<(), NoMemory> {
    let mut length = levels.wrapping_mul(8).wrapping_sub(3);
    for _ in 1..levels {
        bytes.extend(&length.to_le_bytes())?;
        bytes.extend(item)?;
        length = length.wrapping_sub(8);
    }
    Ok(())
}

fn push_ends(bytes: &mut Bytes, levels: u32) -> Result<(), NoMemory> {
    for _ in 1..levels {
        bytes.push(0)?;
    }
    Ok(())
}

/// Adds a field.
pub fn put(alloc: Global, document: &mut Document, name: &str, value: Value) -> Result<(), Fault> {
    let name = Text::of(alloc, name)?;
    accepted(document.push(name, value))
}

/// How many bytes a document is written as.
pub fn size_of(alloc: Global, document: &Document) -> Result<Count<'static>, EncodeFault> {
    let bytes = encode(alloc, document)?;
    Ok(Count(bytes.len(), "bytes"))
}

fn print_encoded(rt: &HostRuntime, what: &str, document: &Document) -> Result<(), Fault> {
    print_answer(
        rt,
        format_args!("encode {what}"),
        size_of(rt.alloc(), document),
    )
}

// A document in a document.
fn inside(alloc: Global, document: Document) -> Result<Document, Fault> {
    let mut outer = Document::new(alloc);
    put(alloc, &mut outer, "a", Value::Doc(document))?;
    Ok(outer)
}

// So many documents inside each other.
fn deep(alloc: Global, levels: u32) -> Result<Document, Fault> {
    let mut document = Document::new(alloc);
    for _ in 1..levels {
        document = inside(alloc, document)?;
    }
    Ok(document)
}

fn print_deep(rt: &HostRuntime, levels: u32) -> Result<(), Fault> {
    let document = deep(rt.alloc(), levels)?;
    print_encoded(rt, "levels of documents", &document)
}

// An array in an array.
fn in_array(alloc: Global, array: Values) -> Result<Values, NoMemory> {
    let mut outer = Values::new(alloc);
    outer.push(Value::Array(array))?;
    Ok(outer)
}

// So many arrays inside each other.
fn put_arrays(alloc: Global, document: &mut Document, levels: u32) -> Result<(), Fault> {
    let mut array = Values::new(alloc);
    for _ in 1..levels {
        array = in_array(alloc, array)?;
    }
    put(alloc, document, "a", Value::Array(array))
}

fn print_arrays(rt: &HostRuntime, levels: u32) -> Result<(), Fault> {
    let mut document = Document::new(rt.alloc());
    put_arrays(rt.alloc(), &mut document, levels)?;
    print_encoded(rt, "levels of arrays", &document)
}

// A binary of so many zeros.
fn put_zeros(alloc: Global, document: &mut Document, count: usize) -> Result<(), Fault> {
    let bytes = Bytes::from_vec(alloc, vec![in alloc; 0; count]?);
    put(alloc, document, "a", Value::Binary { subtype: 0, bytes })
}

fn print_zeros(rt: &HostRuntime, count: usize) -> Result<(), Fault> {
    let mut document = Document::new(rt.alloc());
    put_zeros(rt.alloc(), &mut document, count)?;
    print_encoded(rt, "many zeros", &document)
}

// Depth is looked at before the zero in a name.
fn print_before_zero(rt: &HostRuntime) -> Result<(), Fault> {
    let mut document = deep(rt.alloc(), 101)?;
    put(rt.alloc(), &mut document, "\0", Value::Null)?;
    print_encoded(rt, "levels, then a zero in a name", &document)
}

// Inner names are looked at too.
fn print_inner_zero(rt: &HostRuntime) -> Result<(), Fault> {
    let mut inner = Document::new(rt.alloc());
    put(rt.alloc(), &mut inner, "\0", Value::Null)?;
    let document = inside(rt.alloc(), inner)?;
    print_encoded(rt, "a zero in an inner name", &document)
}

// Length is looked at before both.
fn print_before_deep(rt: &HostRuntime) -> Result<(), Fault> {
    let mut document = Document::new(rt.alloc());
    put_zeros(rt.alloc(), &mut document, 16_777_204)?;
    put_deep(rt.alloc(), &mut document)?;
    put(rt.alloc(), &mut document, "\0", Value::Null)?;
    print_encoded(rt, "zeros, then levels, then a zero in a name", &document)
}

fn put_deep(alloc: Global, document: &mut Document) -> Result<(), Fault> {
    let inner = deep(alloc, 101)?;
    put(alloc, document, "b", Value::Doc(inner))
}
