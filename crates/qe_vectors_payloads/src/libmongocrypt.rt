//! Blobs that libmongocrypt wrote, a line of hex digits each: what is read is written again.

use crate::inserts::print_malformed;
use qe_base::{Lines, StdSource, take_all};
use qe_line::{Fault, Hex, accepted, print_line};
use qe_payload::{
    read_equal, read_insert, read_range, what_is_read_fits, write_equal, write_insert, write_range,
};

// How many they are.
const BLOBS: usize = 13;

/// Prints what is written again of each blob of the standard input.
pub fn print(rt: &HostRuntime) -> Result<(), Fault> {
    let text = take_all(rt.alloc(), &mut StdSource::new(rt))?;
    let mut lines = Lines::of(text.slice());
    for _ in 0..BLOBS {
        if let Some((_, line)) = lines.next_line() {
            print_again(rt, line)?;
        }
    }
    Ok(())
}

fn print_again(rt: &HostRuntime, line: &[u8]) -> Result<(), Fault> {
    let blob = hex::decode(rt.alloc(), line)?;
    print_blob(rt, blob.as_slice())
}

fn print_blob(rt: &HostRuntime, blob: &[u8]) -> Result<(), Fault> {
    match blob.first() {
        Some(11) => print_insert(rt, blob),
        Some(12) => print_equal(rt, blob),
        _ => print_range(rt, blob),
    }
}

fn print_insert(rt: &HostRuntime, blob: &[u8]) -> Result<(), Fault> {
    what_is_read_fits();
    match read_insert(rt.alloc(), blob) {
        Ok(payload) => {
            let again = accepted(write_insert(rt.alloc(), &payload))?;
            print_line(rt, Hex(again.slice()))
        }
        Err(fault) => print_malformed(rt, "insert", "of libmongocrypt", &fault),
    }
}

fn print_equal(rt: &HostRuntime, blob: &[u8]) -> Result<(), Fault> {
    what_is_read_fits();
    match read_equal(rt.alloc(), blob) {
        Ok(payload) => {
            let again = accepted(write_equal(rt.alloc(), &payload))?;
            print_line(rt, Hex(again.slice()))
        }
        Err(fault) => print_malformed(rt, "find", "of libmongocrypt", &fault),
    }
}

fn print_range(rt: &HostRuntime, blob: &[u8]) -> Result<(), Fault> {
    what_is_read_fits();
    match read_range(rt.alloc(), blob) {
        Ok(payload) => {
            let again = accepted(write_range(rt.alloc(), &payload))?;
            print_line(rt, Hex(again.slice()))
        }
        Err(fault) => print_malformed(rt, "find of a range", "of libmongocrypt", &fault),
    }
}
