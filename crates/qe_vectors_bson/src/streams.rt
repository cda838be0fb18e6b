//! Documents that come in pieces.

use qe_bson::{BsonFault, Reader};
use qe_line::{Fault, Hex, accepted, print_line};

// A document with a field of each type.
const DOCUMENT: &[u8] =
    b"\x8b\0\0\0\x01d\0\0\x01\x02\x03\x04\x05\x06\x07\x02s\0\x04\0\0\0h\xc3\xa9\0\x03o\0\x08\0\
      \0\0\x0ax\0\0\x04a\0\x0d\0\0\0\x08\x30\0\x01\x08\x31\0\0\0\x05b\0\x03\0\0\0\x04\x01\x02\
      \x03\x07i\0\0\x01\x02\x03\x04\x05\x06\x07\x08\x09\x0a\x0b\x09t\0\xff\xff\xff\xff\xff\xff\
      \xff\xff\x10n\0\xfe\xff\xff\xff\x11q\0\x05\0\0\0\0\0\0\0\x12l\0\xfd\xff\xff\xff\xff\xff\
      \xff\xff\x13z\0\0\x01\x02\x03\x04\x05\x06\x07\x08\x09\x0a\x0b\x0c\x0d\x0e\x0f\0";

/// Prints what a reader gives of pieces.
pub fn print(rt: &HostRuntime) -> Result<(), Fault> {
    print_fed(rt)?;
    print_fault(rt)
}

// A document fed byte by byte, and the beginning of another.
fn print_fed(rt: &HostRuntime) -> Result<(), Fault> {
    let mut reader = Reader::new(rt.alloc());
    for (i, byte) in DOCUMENT.iter().enumerate() {
        print_used(rt, &mut reader, i, *byte)?;
    }
    print_unfinished(rt, reader)
}

fn print_used(rt: &HostRuntime, reader: &mut Reader, i: usize, byte: u8) -> Result<(), Fault> {
    match used_of(reader, &[byte])? {
        None => Ok(()),
        Some(used) => print_line(rt, format_args!("fed: a document at byte {i}, {used} used")),
    }
}

// How many bytes of a piece were used, where a document is whole behind it.
fn used_of(reader: &mut Reader, piece: &[u8]) -> Result<Option<usize>, Fault> {
    match accepted(reader.feed(piece))? {
        None => Ok(None),
        Some((_, used)) => Ok(Some(used)),
    }
}

fn print_unfinished(rt: &HostRuntime, mut reader: Reader) -> Result<(), Fault> {
    match used_of(&mut reader, &[5, 0, 0])? {
        None => print_finished(rt, reader),
        Some(_) => Err(Fault::Refused),
    }
}

fn print_finished(rt: &HostRuntime, reader: Reader) -> Result<(), Fault> {
    print_line(rt, format_args!("finished: {:?}", reader.finish()))
}

// A fault stays.
fn print_fault(rt: &HostRuntime) -> Result<(), Fault> {
    let mut reader = Reader::new(rt.alloc());
    print_refused(rt, &mut reader, &[4, 0, 0, 0])?;
    print_refused(rt, &mut reader, &[9])?;
    print_finished(rt, reader)
}

fn print_refused(rt: &HostRuntime, reader: &mut Reader, piece: &[u8]) -> Result<(), Fault> {
    match fault_of(reader, piece) {
        None => Err(Fault::Refused),
        Some(fault) => print_line(rt, format_args!("fed {}: {fault:?}", Hex(piece))),
    }
}

fn fault_of(reader: &mut Reader, piece: &[u8]) -> Option<BsonFault> {
    match reader.feed(piece) {
        Ok(_) => None,
        Err(fault) => Some(fault),
    }
}
