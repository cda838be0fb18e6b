//! One line, played.

ghost use Rattle.std.specs.Prelude.{◌≡◌, true, Ok, IfOk, IfErr, IsOk, OnErr};
ghost use Rattle.qe_fits.specs.Fits.{fits};
ghost use Rattle.qe_schema.specs.Resolved.{IsResolved};
ghost use Rattle.qe_command_document.specs.CommandDocument.{command_at};
ghost use Rattle.qe_line_played.specs.Played.{IsAnswered, IsNotEntered, IsPlayFault, IsReplied};

use crate::fault::PlayFault;
use qe_base::NoMemory;
use qe_client::{Client, Sent};
use qe_command_document::read_command;
use qe_engine::Engine;
use qe_layout::Malformed;
use qe_plain::{PlainCommand, PlainReply};
use qe_protocol::{Command, Reply, nonces_needed};
use qe_schema::Schema;
use std::alloc::Global;

/// What was sent for a line, and what was answered.
#[derive(Drop)]
pub struct Played {
    /// What the client sent.
    pub sent: Sent,
    /// The engine's reply, as the client reads it.
    pub reply: PlainReply,
}

/// What was sent for a line, and what the engine replied.
#[derive(Drop)]
struct Replied {
    sent: Sent,
    reply: Reply,
}

// The command of a document that is one.
fn read_again(alloc: Global, schema: &Schema, bytes: &[u8]) -> Result<Command, NoMemory>
    requires { IsOk (command_at schema.now bytes.now) }
    ensures { IfOk result (λ command. command_at schema.now bytes.now ≡ Ok command) }
{
    match read_command(alloc, schema, bytes) {
        Ok(command) => Ok(command),
        Err(Malformed::NoMemory) => Err(NoMemory),
        Err(Malformed::At { .. }) => unreachable!(),
    }
}

// Sends a caller's command to the engine. Where memory is wanting, the engine stays as it was.
fn send(
    alloc: Global,
    client: &mut Client,
    engine: &mut Engine,
    caller: u32,
    plain: &PlainCommand,
) -> Result<Replied, NoMemory>
    requires schema { engine.old.schema ≡ client.old.sender.under.schema }
    requires resolved { IsResolved client.old.sender.under.schema plain.now }
    requires fits { fits client.old.sender.under.schema plain.now ≡ true }
    ensures ok { IfOk result (IsReplied client.old client.new engine.old engine.new caller plain.now) }
    ensures err { OnErr result (IsNotEntered client.old client.new engine.old engine.new caller plain.now) }
{
    let sent = client.command(plain)?;
    let schema = engine.schema();
    let _fields = schema.fields();
    let command = read_again(alloc, schema, sent.bytes.slice())?;
    let nonces = client.nonces(nonces_needed(&command))?;
    let reply = engine.apply(caller, command, nonces.slice())?;
    Ok(Replied { sent, reply })
}

/// Plays a line: the client makes the command and draws the nonces, the engine lets it take effect for the caller, and the
/// client reads the reply. One entry is added to the journal, whatever stands there.
///
/// Client and engine have one schema, under which the command was resolved; and it fits. `Read` comes exactly where the
/// client doesn't read the reply; the entry then stands. Where memory is wanting it stands or not, and the command's number is
/// used or not.
pub fn play_line(
    alloc: Global,
    client: &mut Client,
    engine: &mut Engine,
    caller: u32,
    plain: &PlainCommand,
) -> Result<Played, PlayFault>
    requires schema { engine.old.schema ≡ client.old.sender.under.schema }
    requires resolved { IsResolved client.old.sender.under.schema plain.now }
    requires fits { fits client.old.sender.under.schema plain.now ≡ true }
    ensures ok { IfOk result (IsAnswered client.old client.new engine.old engine.new caller plain.now) }
    ensures err { IfErr result (IsPlayFault client.old client.new engine.old engine.new caller plain.now) }
{
    let Replied { sent, reply } = send(alloc, client, engine, caller, plain)?;
    let reply = client.answer(&reply)?;
    Ok(Played { sent, reply })
}
