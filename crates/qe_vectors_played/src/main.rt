//! Prints what two clients of the same keys read, that play the lines of scripts in turn over one engine. Standard input holds
//! scripts of two callers, each behind a line `# NAME`; `stdout` holds what an independent program answers. Behind a script's
//! replies stand how many rows there are, and the hash of all that the engine keeps. The clients learn nothing of contentions.
//! Read: pair, playing, scripts; of `specs/`: Pairs.
#![tactic(auto)]

mod pair;
mod playing;
mod scripts;

use qe_base::{StdSource, take_all};
use qe_line::Fault;

fn main(rt: HostRuntime) -> Result<(), Fault> {
    let text = take_all(rt.alloc(), &mut StdSource::new(&rt))?;
    scripts::print_all(&rt, text.slice())
}
