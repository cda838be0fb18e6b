//! Prints what is read of the bytes of documents and values of BSON, a line for each vector: `stdout` holds what
//! independent Python programs answer. Read: documents, values.
#![tactic(auto)]

mod documents;
mod values;

use qe_line::Fault;

fn main(rt: HostRuntime) -> Result<(), Fault> {
    documents::print(&rt)?;
    values::print(&rt)
}
