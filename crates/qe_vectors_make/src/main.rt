//! Prints scripts that `make` makes: `stdout` holds what a Python program makes.
#![tactic(auto)]

use qe_base::{StdSink, put_all};
use qe_line::Fault;
use qe_make::make;

/// Numbers of documents, and seeds: the least of both, the last number without maintenance, and one that every rule is due for.
const SCRIPTS: [(u32, u64); 4] = [(1, 0), (3, u64::MAX), (4, 1), (50, 7)];

fn main(rt: HostRuntime) -> Result<(), Fault> {
    let mut sink = StdSink::new(&rt);
    for (documents, seed) in SCRIPTS {
        let text = make(rt.alloc(), documents, seed)?;
        put_all(&mut sink, text.slice())?;
    }
    Ok(())
}
