//! Applies commands to an engine, and prints what it answers and notes, and at the end its dump. The standard input has
//! lines: the document of a schema in hex digits, and then for each command its document and its nonces, in hex digits
//! with spaces between them; `stdout` holds what an independent program answers.
//!
//! Among the commands are some that the project's client doesn't send: a begin with a token of another key, a value
//! whose last byte was changed, and rows for compaction of both forms. Read: commands, replies.
#![tactic(auto)]

mod commands;
mod replies;

use commands::{run_lines, schema_of};
use qe_base::{Lines, StdSource, take_all};
use qe_engine::Engine;
use qe_line::Fault;
use replies::print_text;

fn main(rt: HostRuntime) -> Result<(), Fault> {
    let text = take_all(rt.alloc(), &mut StdSource::new(&rt))?;
    let mut lines = Lines::of(text.slice());
    let Some((_, first)) = lines.next_line() else {
        return Err(Fault::Refused);
    };
    let mut engine = Engine::new(rt.alloc(), schema_of(rt.alloc(), first)?)?;
    run_lines(&rt, &mut engine, &mut lines, text.len())?;
    print_text(&rt, engine.dump()?.slice())
}
