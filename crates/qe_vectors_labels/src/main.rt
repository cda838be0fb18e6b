//! Prints labels with their identifiers, and which two clash: each line of the standard input is a list of words or of
//! labels, and `stdout` holds what a Python program answers.
//!
//!     words 0,0,5,0,1 1,0,65,0,0
//!     labels 0,5,1,7 1,6,0,7
//!
//! Read: line, identified, clashes.
#![tactic(auto)]

mod clashes;
mod identified;
mod line;

use qe_base::{Lines, StdSource, take_all};
use qe_line::Fault;

fn main(rt: HostRuntime) -> Result<(), Fault> {
    let text = take_all(rt.alloc(), &mut StdSource::new(&rt))?;
    let mut lines = Lines::of(text.slice());
    while let Some((_, line)) = lines.next_line() {
        print_line(&rt, line)?;
    }
    Ok(())
}

fn print_line(rt: &(impl Print + AllocGlobal), line: &[u8]) -> Result<(), Fault> {
    let Ok(line) = str::from_utf8(line) else {
        return Err(Fault::Refused);
    };
    match line.split_once(' ') {
        Some(("words", words)) => identified::print(rt, words),
        Some(("labels", labels)) => clashes::print(rt, labels),
        None if line.is_empty() => Ok(()),
        _ => Err(Fault::Refused),
    }
}
