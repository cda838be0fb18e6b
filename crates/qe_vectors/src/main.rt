//! Prints what the public calls of the lower crates answer, a line for each vector: `stdout` holds the values of the
//! standards, of libmongocrypt, of openssl and of Python programs. Read: a module for each subject.
#![tactic(auto)]

mod ciphers;
mod hashes;
mod sealed_values;
mod token_tree;

use qe_line::Fault;

fn main(rt: HostRuntime) -> Result<(), Fault> {
    ciphers::print(&rt)?;
    hashes::print(&rt)?;
    sealed_values::print(&rt)?;
    token_tree::print(&rt)
}
