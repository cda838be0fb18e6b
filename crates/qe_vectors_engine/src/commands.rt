//! Commands that lines hold, applied.

ghost use Rattle.std.specs.Prelude.{◌≡◌, length, IfOk};
ghost use Rattle.qe_command.specs.Nonces.{nonces_of};
ghost use Rattle.qe_command_document.specs.CommandDocument.{Fits};

use crate::replies::{print_noted, print_reply};
use qe_base::{Lines, Nonces};
use qe_command_fits::what_fits_is_of_its_schema;
use qe_document::decode;
use qe_engine::{Command, Engine, Reply, nonces_needed, read_command};
use qe_line::{Fault, accepted, bytes_of};
use qe_schema::Schema;
use std::alloc::Global;

/// The schema of a line.
pub fn schema_of(alloc: Global, line: &[u8]) -> Result<Schema, Fault> {
    let bytes = hex::decode(alloc, line)?;
    let (document, _) = accepted(decode(alloc, bytes.as_slice()))?;
    accepted(Schema::read(alloc, &document))
}

/// Applies the commands of the lines that are left, up to so many.
pub fn run_lines(
    rt: &HostRuntime,
    engine: &mut Engine,
    lines: &mut Lines<'_>,
    most: usize,
) -> Result<(), Fault> {
    for _ in 0..most {
        match lines.next_line() {
            Some((_, line)) => run_line(rt, engine, line)?,
            None => return Ok(()),
        }
    }
    Ok(())
}

// Applies the command of a line, if it has one.
fn run_line(rt: &HostRuntime, engine: &mut Engine, line: &[u8]) -> Result<(), Fault> {
    let Ok(text) = str::from_utf8(line) else {
        return Err(Fault::Refused);
    };
    match text.split_once(' ') {
        Some((document, nonces)) => run(rt, engine, document, &nonces_of(rt.alloc(), nonces)?),
        None if text.is_empty() => Ok(()),
        None => run(rt, engine, text, &Nonces::new(rt.alloc())),
    }
}

// Nonces with spaces between them.
fn nonces_of(alloc: Global, text: &str) -> Result<Nonces, Fault> {
    let mut nonces = Nonces::new(alloc);
    for word in text.split(' ') {
        nonces.push(bytes_of::<16>(word)?)?;
    }
    Ok(nonces)
}

// Applies the command of a document, and prints what is answered and noted.
fn run(
    rt: &HostRuntime,
    engine: &mut Engine,
    document: &str,
    nonces: &Nonces,
) -> Result<(), Fault> {
    let command = command_of(rt.alloc(), engine.schema(), document)?;
    let reply = apply(engine, command, nonces.slice())?;
    print_reply(rt, engine.schema().fields(), &reply)?;
    match engine.journal().last() {
        Some(entry) => print_noted(rt, entry),
        None => Ok(()),
    }
}

// The command of a document in hex digits.
fn command_of(alloc: Global, schema: &Schema, document: &str) -> Result<Command, Fault>
    ensures { IfOk result (Fits schema.now) }
{
    let bytes = hex::decode(alloc, document)?;
    command_from(alloc, schema, bytes.as_slice())
}

// The command of a document's bytes.
fn command_from(alloc: Global, schema: &Schema, bytes: &[u8]) -> Result<Command, Fault>
    ensures { IfOk result (Fits schema.now) }
{
    match read_command(alloc, schema, bytes) {
        Ok(command) => Ok(command),
        Err(_) => Err(Fault::Refused),
    }
}

// Applies a command, where it has as many nonces as it needs.
fn apply(engine: &mut Engine, command: Command, nonces: &[[u8; 16]]) -> Result<Reply, Fault>
    requires { Fits engine.old.schema command }
{
    what_fits_is_of_its_schema();
    let _fields = engine.schema().fields();
    if nonces_needed(&command) != nonces.len() {
        return Err(Fault::Refused);
    }
    Ok(engine.apply(0, command, nonces)?)
}
