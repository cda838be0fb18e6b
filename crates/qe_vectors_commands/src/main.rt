//! Prints what `read_command` answers: the standard input has lines of hex digits, first the document of a schema and
//! then a command document each; `stdout` holds what an independent program answers. Read: commands.
#![tactic(auto)]

mod commands;

use commands::{print_command, schema_of};
use qe_base::{Lines, StdSource, take_all};
use qe_line::Fault;
use qe_schema::Schema;

fn main(rt: HostRuntime) -> Result<(), Fault> {
    let text = take_all(rt.alloc(), &mut StdSource::new(&rt))?;
    print_text(&rt, text.slice())
}

fn print_text(rt: &HostRuntime, text: &[u8]) -> Result<(), Fault> {
    let mut lines = Lines::of(text);
    match lines.next_line() {
        Some((_, first)) => print_commands(rt, &schema_of(rt.alloc(), first)?, lines),
        None => Err(Fault::Refused),
    }
}

fn print_commands(rt: &HostRuntime, schema: &Schema, mut lines: Lines<'_>) -> Result<(), Fault> {
    while let Some((_, line)) = lines.next_line() {
        if !line.is_empty() {
            print_command(rt, schema, line)?;
        }
    }
    Ok(())
}
