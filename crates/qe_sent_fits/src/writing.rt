//! The document of a command that is sent.

ghost use Rattle.std.specs.Prelude.{◌≡◌, Ok, IfOk};
ghost use Rattle.qe_document.specs.Spelling.{document_bytes};
ghost use Rattle.qe_command_document.specs.CommandDocument.{Fits, command_at};
ghost use Rattle.qe_command_written.specs.Written.{command_elements};
ghost use Rattle.qe_sent_fits.specs.Covers.{HasShortCovers};
ghost use Rattle.qe_sent_fits.specs.Sent.{IsSentFor};

use crate::covers::covers_are_short;
use crate::schema::are_keyed;
use qe_base::{Bytes, NoMemory};
use qe_command::Command;
use qe_command_document::command_documents_are_read;
use qe_command_written::write_command;
use qe_document::EncodeFault;
use qe_held::command_held;
use qe_plain::PlainCommand;
use qe_schema::Schema;
use std::alloc::Global;

fn fits_schema(schema: &Schema, plain: &PlainCommand, command: &Command)
    requires sent { IsSentFor schema.now plain.now command.now }
    requires covers { HasShortCovers schema.now plain.now }
    ensures { Fits schema.now command.now }
{
    are_keyed(schema.fields());
    command_held(command);
}

/// The document of a command that is sent for a plain command which fits the schema. It is never refused: only memory
/// may be wanting.
pub fn write_sent(
    alloc: Global,
    schema: &Schema,
    plain: &PlainCommand,
    command: &Command,
) -> Result<Bytes, NoMemory>
    requires { IsSentFor schema.now plain.now command.now }
    // Its bytes are the written form of the command.
    ensures document { IfOk result (λ bytes. bytes ≡ document_bytes (command_elements schema.now command.now)) }
    // They are read as the command again.
    ensures again { IfOk result (λ bytes. command_at schema.now bytes ≡ Ok command.now) }
    ensures fits { IfOk result (λ _. Fits schema.now command.now) }
{
    covers_are_short(alloc, schema.fields(), plain)?;
    fits_schema(schema, plain, command);
    command_documents_are_read();
    match write_command(alloc, schema, command) {
        Ok(bytes) => Ok(bytes),
        Err(EncodeFault::NoMemory) => Err(NoMemory),
        Err(_) => unreachable!(),
    }
}
