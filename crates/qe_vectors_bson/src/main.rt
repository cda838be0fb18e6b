//! Prints what the public calls on documents in pieces and on Extended JSON answer, a line for each vector: `stdout`
//! holds what independent Python programs answer. Read: a module for each subject.
#![tactic(auto)]

mod extended_json;
mod streams;

use qe_line::Fault;

fn main(rt: HostRuntime) -> Result<(), Fault> {
    streams::print(&rt)?;
    extended_json::print(&rt)
}
