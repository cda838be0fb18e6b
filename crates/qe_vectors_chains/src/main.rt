//! Prints what pairs of a tag and a document answer: each line of the standard input is what is done to pairs, of which
//! there are none at first, and `stdout` holds what a Python program of other data structures answers.
//!
//!     chains l,1,1 l,2,1 t,1
//!
//! Read: links.
#![tactic(auto)]

mod links;

use qe_base::{Lines, StdSource, take_all};
use qe_line::Fault;
use qe_line_words::line_of;

fn main(rt: HostRuntime) -> Result<(), Fault> {
    let text = take_all(rt.alloc(), &mut StdSource::new(&rt))?;
    print_answers(&rt, Lines::of(text.slice()))
}

fn print_answers(rt: &HostRuntime, mut lines: Lines<'_>) -> Result<(), Fault> {
    while let Some((_, line)) = lines.next_line() {
        links::print(rt, line_of(line)?)?;
    }
    Ok(())
}
