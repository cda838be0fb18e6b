//! Scripts to try the program on: a number of documents with drawn values, searches, updates, deletes and maintenance.
//!
//! `make` writes a script, which is a function of the number of documents and of a seed. Read: script, rules, commands, header,
//! generator; the definitions in `specs/` stand in the same order.
//!
//!     make(alloc, 1000, 7)?; // a header and 1,226 commands, a line each
#![tactic(auto)]

mod commands;
mod generator;
mod header;
mod rules;
mod script;

pub use script::make;
