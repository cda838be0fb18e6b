//! Documents of BSON: what is read and written again, and the first faults.

use qe_base::{Bytes, Duplicate};
use qe_document::{BsonFault, Document, decode, encode};
use qe_line::{Fault, Hex, accepted, print_line};
use std::alloc::Global;

// A field of each type; two fields; none.
const WRITTEN: [&[u8]; 3] = [
    b"\x8b\0\0\0\x01d\0\0\x01\x02\x03\x04\x05\x06\x07\x02s\0\x04\0\0\0h\xc3\xa9\0\x03o\0\x08\0\
      \0\0\x0ax\0\0\x04a\0\x0d\0\0\0\x08\x30\0\x01\x08\x31\0\0\0\x05b\0\x03\0\0\0\x04\x01\x02\
      \x03\x07i\0\0\x01\x02\x03\x04\x05\x06\x07\x08\x09\x0a\x0b\x09t\0\xff\xff\xff\xff\xff\xff\
      \xff\xff\x10n\0\xfe\xff\xff\xff\x11q\0\x05\0\0\0\0\0\0\0\x12l\0\xfd\xff\xff\xff\xff\xff\
      \xff\xff\x13z\0\0\x01\x02\x03\x04\x05\x06\x07\x08\x09\x0a\x0b\x0c\x0d\x0e\x0f\0",
    b"\x17\0\0\0\x10_id\0\x01\0\0\0\x10age\0\x05\0\0\0\0",
    b"\x05\0\0\0\0",
];

// Faults of the length, of types and of values.
const LENGTHS: [&[u8]; 12] = [
    b"\x04\0\0\0\0",
    b"\x05\0\0\0",
    b"\x06\0\0\0\0\0",
    b"\x05\0\0\0\x01",
    b"\x08\0\0\0\x06a\0\0",
    b"\x0b\0\0\0\x0aa\0\x0aa\0\0",
    b"\x09\0\0\0\x08a\0\x02\0",
    b"\x05\0\0\0\0\xff",
    b"\x01\0\0\x01",
    b"\0\0\0\x01",
    b"\0\0\0\x80",
    b"\x05\0",
];

// Strings, binaries and inner documents.
const TEXTS: [&[u8]; 10] = [
    b"\x0e\0\0\0\x02a\0\x02\0\0\0\x80\0\0",
    b"\x0f\0\0\0\x02a\0\x03\0\0\0\xc0\x80\0\0",
    b"\x0e\0\0\0\x02a\0\x02\0\0\0\0\0\0",
    b"\x0e\0\0\0\x02a\0\x02\0\0\0xy\0",
    b"\x0e\0\0\0\x02a\0\x02\0\0\0\x80y\0",
    b"\x0d\0\0\0\x02a\0\0\0\0\0\0\0",
    b"\x0e\0\0\0\x02a\0\x03\0\0\0x\0\0",
    b"\x0e\0\0\0\x02a\0\xff\xff\xff\xffx\0\0",
    b"\x0d\0\0\0\x05a\0\xff\xff\xff\xff\0\0",
    b"\x0d\0\0\0\x03a\0\x04\0\0\0\0\0",
];

// Names, of arrays too.
const NAMES: [&[u8]; 10] = [
    b"\x08\0\0\0\x0a\xff\0\0",
    b"\x0a\0\0\0\x0a\xed\xa0\x80\0\0",
    b"\x08\0\0\0\x0aab\0",
    b"\x10\0\0\0\x04a\0\x08\0\0\0\x0a\x31\0\0\0",
    b"\x13\0\0\0\x04a\0\x0b\0\0\0\x0a\x30\0\x0a\x30\0\0\0",
    b"\x11\0\0\0\x04a\0\x09\0\0\0\x0a\x30\x30\0\0\0",
    b"\x0f\0\0\0\x04a\0\x07\0\0\0\x0a\0\0\0",
    b"\x10\0\0\0\x04a\0\x08\0\0\0\x0a\xff\0\0\0",
    b"\x0c\0\0\0\x0aa\0\x08a\0\x02\0",
    b"\x10\0\0\0\x03a\0\x08\0\0\0\x0aa\0\0\0",
];

/// Prints what is read of bytes.
pub fn print(rt: &HostRuntime) -> Result<(), Fault> {
    for bytes in WRITTEN {
        print_written(rt, bytes)?;
    }
    print_all(rt, &LENGTHS)?;
    print_all(rt, &TEXTS)?;
    print_all(rt, &NAMES)
}

fn print_all(rt: &HostRuntime, table: &[&[u8]]) -> Result<(), Fault> {
    for bytes in table {
        print_decoded(rt, bytes)?;
    }
    Ok(())
}

// A document, copied and written again.
fn print_written(rt: &HostRuntime, bytes: &[u8]) -> Result<(), Fault> {
    let (written, used) = written_of(rt.alloc(), bytes)?;
    print_line(
        rt,
        format_args!("document of {used} bytes: {}", Hex(written.slice())),
    )
}

fn written_of(alloc: Global, bytes: &[u8]) -> Result<(Bytes, usize), Fault> {
    let (document, used) = accepted(decode(alloc, bytes))?;
    let written = copied(alloc, &document)?;
    Ok((written, used))
}

fn copied(alloc: Global, document: &Document) -> Result<Bytes, Fault> {
    let copied = document.copy()?;
    accepted(encode(alloc, &copied))
}

fn print_decoded(rt: &HostRuntime, bytes: &[u8]) -> Result<(), Fault> {
    match read_of(rt.alloc(), bytes) {
        Ok((fields, used)) => print_line(
            rt,
            format_args!("decode {}: {fields} fields, {used} bytes", Hex(bytes)),
        ),
        Err(fault) => print_line(rt, format_args!("decode {}: {fault:?}", Hex(bytes))),
    }
}

// How many fields the document that begins the bytes has, and how many bytes.
fn read_of(alloc: Global, bytes: &[u8]) -> Result<(usize, usize), BsonFault> {
    let (document, used) = decode(alloc, bytes)?;
    Ok((document.len(), used))
}
