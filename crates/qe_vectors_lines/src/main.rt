//! Prints what `show` answers of blobs: `stdout` holds what independent programs answer. Read: fault, shown_blobs.
#![tactic(auto)]

mod fault;
mod shown_blobs;

use fault::Fault;

fn main(rt: HostRuntime) -> Result<(), Fault> {
    shown_blobs::print(&rt)
}
