//! Prints what a client reads of replies with stored values, good and faulty. The standard input has a schema's document, its
//! keys, and replies: each a name, and for each row its one cell, as a field's number and what is stored. `stdout` holds what
//! a Python program answers.
//!
//!     schema b501..
//!     keys 0001.. 6061..
//!     good 1,0e00.. 2,0e00..
//!
//! Read: rows, reader.
#![tactic(auto)]

mod reader;
mod rows;

use qe_base::{Lines, StdSource, take_all};
use qe_line::Fault;
use reader::{Reader, reader_of};
use rows::{found_of, keys_of, schema_of, split_first};
use std::alloc::Global;

fn main(rt: HostRuntime) -> Result<(), Fault> {
    let text = take_all(rt.alloc(), &mut StdSource::new(&rt))?;
    let mut lines = Lines::of(text.slice());
    let reader = read_reader(rt.alloc(), &mut lines)?;
    while let Some((_, line)) = lines.next_line() {
        print_reply(&rt, &reader, line)?;
    }
    Ok(())
}

// The client of the schema's line and the keys' line.
fn read_reader(alloc: Global, lines: &mut Lines) -> Result<Reader, Fault> {
    let (Some((_, schema)), Some((_, keys))) = (lines.next_line(), lines.next_line()) else {
        return Err(Fault::Refused);
    };
    let (_, schema) = split_first(schema)?;
    let (_, keys) = split_first(keys)?;
    reader_of(alloc, schema_of(alloc, schema)?, keys_of(alloc, keys)?)
}

fn print_reply(rt: &HostRuntime, reader: &Reader, line: &[u8]) -> Result<(), Fault> {
    if line.is_empty() {
        return Ok(());
    }
    let (name, words) = split_first(line)?;
    let reply = found_of(rt.alloc(), words)?;
    reader.print(rt, name, &reply)
}
