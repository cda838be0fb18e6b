//! Prints what the public calls on indexed values, edges and covers answer, a line for each vector: `stdout` holds what
//! Python programs answer. Read: indexed_values, prefixes.
#![tactic(auto)]

mod indexed_values;
mod prefixes;

use qe_line::Fault;

fn main(rt: HostRuntime) -> Result<(), Fault> {
    indexed_values::print(&rt)?;
    prefixes::print(&rt)
}
