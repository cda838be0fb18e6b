//! Prints what the public calls on payloads answer, a line for each vector: `stdout` holds what independent programs
//! answer. Read: inserts, finds, libmongocrypt.
#![tactic(auto)]

mod finds;
mod inserts;
mod libmongocrypt;

use qe_line::Fault;

fn main(rt: HostRuntime) -> Result<(), Fault> {
    inserts::print(&rt)?;
    finds::print(&rt)?;
    libmongocrypt::print(&rt)
}
