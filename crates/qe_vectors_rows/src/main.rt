//! Prints what searches find among the rows of a token: each line of the standard input is a token and what is done to
//! its rows, and `stdout` holds what a Python program of other data structures answers.
//!
//!     rows,7 p,1,100 s
//!
//! Read: counted, searches.
#![tactic(auto)]

mod counted;
mod searches;

use qe_base::{Lines, StdSource, take_all};
use qe_line::Fault;
use qe_line_words::line_of;

fn main(rt: HostRuntime) -> Result<(), Fault> {
    let text = take_all(rt.alloc(), &mut StdSource::new(&rt))?;
    print_answers(&rt, Lines::of(text.slice()))
}

fn print_answers(rt: &HostRuntime, mut lines: Lines<'_>) -> Result<(), Fault> {
    while let Some((_, line)) = lines.next_line() {
        searches::print(rt, line_of(line)?)?;
    }
    Ok(())
}
