//! Prints what documents of BSON answer that are built field by field or of many levels, a line for each vector: `stdout`
//! holds what independent Python programs answer. Read: nested, built.
#![tactic(auto)]

mod built;
mod nested;

use qe_line::Fault;

fn main(rt: HostRuntime) -> Result<(), Fault> {
    nested::print(&rt)?;
    built::print(&rt)
}
