//! Command documents that are written.
//!
//!     let bytes = write_command(alloc, &schema, &command)?; // `read_command` gives the command again
//!
//! Elements stand in the tables' order, cells and tokens in schema order, and terms in the filter's. Read: payloads, cells,
//! terms, tokens, writing; of `specs/`: Written, Faults, Parts.
#![tactic(auto)]

mod cells;
mod elements;
mod payloads;
mod terms;
mod tokens;
mod writing;

pub use writing::write_command;
