//! Prints what the documents of the server answer: each line of the standard input is what is done to documents, of
//! which there are none at first, and `stdout` holds what a Python program of other data structures answers.
//!
//!     store i,0,5,1,2 n,0,5
//!
//! Read: documents.
#![tactic(auto)]

mod documents;

use qe_base::{Lines, StdSource, take_all};
use qe_line::Fault;
use qe_line_words::line_of;

fn main(rt: HostRuntime) -> Result<(), Fault> {
    let text = take_all(rt.alloc(), &mut StdSource::new(&rt))?;
    print_answers(&rt, Lines::of(text.slice()))
}

fn print_answers(rt: &HostRuntime, mut lines: Lines<'_>) -> Result<(), Fault> {
    while let Some((_, line)) = lines.next_line() {
        documents::print(rt, line_of(line)?)?;
    }
    Ok(())
}
