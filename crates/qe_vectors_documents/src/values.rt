//! Values that are read from the bytes after an element's name, and written again.

use qe_document::{BsonFault, Value, value_bytes, value_from, value_kind};
use qe_line::{Fault, Hex, accepted, print_line, print_shown};

// By the byte of a type.
const VALUES: [(u8, &[u8]); 14] = [
    (0x10, b"\x05\0\0\0"),
    (0x10, b"\x05\0\0\0\0"),
    (0x10, b"\0\0\0"),
    (0x06, b""),
    (0x0a, b""),
    (0x0a, b"\0"),
    (0x02, b"\x02\0\0\0x\0"),
    (0x02, b"\x02\0\0\0xy"),
    (0x02, b"\x02\0\0\0\x80\0"),
    (0x02, b"\x02\0\0\0x\0\x01\x02"),
    (0x08, b"\x02"),
    (0x03, b"\x05\0\0\0\0"),
    (0x03, b"\x05\0\0\0\0\0"),
    (0x05, b"\x02\0\0\0\x04\x01\x02"),
];

/// Prints values of each kind of refusal.
pub fn print(rt: &HostRuntime) -> Result<(), Fault> {
    for (kind, bytes) in VALUES {
        print_value(rt, kind, bytes)?;
    }
    Ok(())
}

fn print_value(rt: &HostRuntime, kind: u8, bytes: &[u8]) -> Result<(), Fault> {
    match value_from(rt.alloc(), kind, bytes) {
        Ok(value) => print_written(rt, kind, bytes, &value),
        Err(fault) => print_fault(rt, kind, bytes, fault),
    }
}

fn print_written(rt: &HostRuntime, kind: u8, bytes: &[u8], value: &Value) -> Result<(), Fault> {
    let written = accepted(value_bytes(rt.alloc(), value))?;
    print_both(rt, (kind, bytes), (value_kind(value), written.slice()))
}

fn print_both(
    rt: &HostRuntime,
    (kind, bytes): (u8, &[u8]),
    (read, written): (u8, &[u8]),
) -> Result<(), Fault> {
    print_shown(
        rt,
        format_args!("value {kind} {}", Hex(bytes)),
        format_args!("type {read} [{}]", Hex(written)),
    )
}

fn print_fault(rt: &HostRuntime, kind: u8, bytes: &[u8], fault: BsonFault) -> Result<(), Fault> {
    print_line(rt, format_args!("value {kind} {}: {fault:?}", Hex(bytes)))
}
