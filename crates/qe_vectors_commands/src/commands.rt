//! Command documents under a schema.

ghost use Rattle.qe_command_document.specs.CommandDocument.{Fits};

use qe_base::JobKind;
use qe_command::{Command, nonces_needed};
use qe_command_document::read_command;
use qe_command_written::write_command;
use qe_document::decode;
use qe_line::{Fault, Hex, accepted, print_line};
use qe_payload::Malformed;
use qe_schema::Schema;
use qe_tokens::FieldToken;
use std::alloc::Global;
use std::fmt;

/// The schema of a line.
pub fn schema_of(alloc: Global, line: &[u8]) -> Result<Schema, Fault> {
    let bytes = hex::decode(alloc, line)?;
    let (document, _) = accepted(decode(alloc, bytes.as_slice()))?;
    accepted(Schema::read(alloc, &document))
}

/// Prints the command of a line, or its refusal.
pub fn print_command(rt: &HostRuntime, schema: &Schema, line: &[u8]) -> Result<(), Fault> {
    let bytes = hex::decode(rt.alloc(), line)?;
    print_answer(rt, schema, bytes.as_slice())
}

fn print_answer(rt: &HostRuntime, schema: &Schema, bytes: &[u8]) -> Result<(), Fault> {
    match read_command(rt.alloc(), schema, bytes) {
        Ok(command) => print_accepted(rt, schema, &command, bytes),
        Err(fault) => print_refusal(rt, &fault),
    }
}

fn print_refusal(rt: &HostRuntime, fault: &Malformed) -> Result<(), Fault> {
    match fault {
        Malformed::At { path, kind } => {
            print_line(rt, format_args!("refused {} {kind:?}", path.as_str()))
        }
        Malformed::NoMemory => Err(Fault::NoMemory),
    }
}

fn print_accepted(
    rt: &HostRuntime,
    schema: &Schema,
    command: &Command,
    bytes: &[u8],
) -> Result<(), Fault>
    requires { Fits schema.now command.now }
{
    print_read(rt, command)?;
    print_written(rt, schema, command, bytes)
}

// How many bytes the command is written as, and whether they are those that it was read of.
fn print_written(
    rt: &HostRuntime,
    schema: &Schema,
    command: &Command,
    bytes: &[u8],
) -> Result<(), Fault>
    requires { Fits schema.now command.now }
{
    let written = accepted(write_command(rt.alloc(), schema, command))?;
    print_same(rt, written.slice(), bytes)
}

fn print_same(rt: &HostRuntime, written: &[u8], bytes: &[u8]) -> Result<(), Fault> {
    let (length, same) = (written.len(), written == bytes);
    print_line(rt, format_args!("written {length} bytes, the same {same}"))
}

fn print_read(rt: &HostRuntime, command: &Command) -> Result<(), Fault> {
    let nonces = nonces_needed(command);
    match command {
        Command::Insert { cells, .. } => {
            print_line(
                rt,
                format_args!("insert cells {} nonces {nonces}", cells.len()),
            )
        }
        Command::Find { filter, ids } => {
            print_line(rt, format_args!("find terms {} ids {ids}", filter.len()))
        }
        Command::Update { filter, set } => print_update(rt, filter.len(), set.len(), nonces),
        Command::Delete { filter } => print_line(rt, format_args!("delete terms {}", filter.len())),
        Command::Begin { kind, tokens } => print_begin(rt, *kind, tokens.slice()),
        Command::Step { job, limit } => {
            print_line(rt, format_args!("step {job} limit {limit} nonces {nonces}"))
        }
        Command::End { job } => print_line(rt, format_args!("end {job}")),
        Command::Abandon { job } => print_line(rt, format_args!("abandon {job}")),
        Command::Raise { field, contention } => {
            print_line(rt, format_args!("raise {field} to {contention}"))
        }
    }
}

fn print_update(rt: &HostRuntime, terms: usize, cells: usize, nonces: usize) -> Result<(), Fault> {
    print_line(
        rt,
        format_args!("update terms {terms} cells {cells} nonces {nonces}"),
    )
}

fn print_begin(rt: &HostRuntime, kind: JobKind, tokens: &[FieldToken]) -> Result<(), Fault> {
    let kind = match kind {
        JobKind::Compact => "compact",
        JobKind::Cleanup => "cleanup",
    };
    print_line(
        rt,
        format_args!("begin {kind} tokens {}{}", tokens.len(), Tokens(tokens)),
    )
}

// Tokens, of each its field and its first four bytes.
#[derive(Drop)]
struct Tokens<'a>(&'a [FieldToken]);

impl fmt::Display for Tokens<'_> {
    fn fmt<W: fmt::Write>(&self, f: &mut fmt::Formatter<W>) -> fmt::Result {
        for token in self.0 {
            write!(f, " {}:{}", token.field, Hex(&token.token.0[..4]))?;
        }
        Ok(())
    }
}
