//! Prints what sources, sinks, lists and texts of qe_base answer, a line for each vector: `stdout` holds what independent
//! Python programs answer. Read: streams.
#![tactic(auto)]

mod streams;

use qe_line::Fault;

fn main(rt: HostRuntime) -> Result<(), Fault> {
    streams::print(&rt)
}
