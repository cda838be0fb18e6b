//! What is sent for a plain command.

ghost use Rattle.std.specs.Prelude.{◌≡◌, true, IfOk};
ghost use Rattle.qe_encodes.specs.Sending.{words_used};
ghost use Rattle.qe_fits.specs.Fits.{fits};
ghost use Rattle.qe_schema.specs.Resolved.{IsResolved};
ghost use Rattle.qe_sending.specs.Sendable.{AreWithin};
ghost use Rattle.qe_client.specs.Clients.{IsMadeFor};

use qe_base::{Bytes, NoMemory};
use qe_plain::PlainCommand;
use qe_sending::{Made, Sender};
use qe_sent_fits::write_sent;
use qe_sent_words::{sought_words, stored_words};
use qe_tokens::Words;
use std::alloc::Global;

/// What is sent for a plain command.
#[derive(Drop)]
pub struct Sent {
    /// The command's document, in BSON.
    pub bytes: Bytes,
    /// The words that it indexes, if it is an insert or an update and is accepted.
    pub indexed: Words,
    /// The words that its filter asks for.
    pub asked: Words,
}

/// What is sent, and how many words were drawn for it.
#[derive(Drop)]
pub(crate) struct Prepared {
    pub sent: Sent,
    pub words: u64,
}

/// What is sent for a plain command, the caller's command of this number, under the contentions that the caller has learned.
pub(crate) fn prepare(
    alloc: Global,
    sender: &Sender,
    number: u64,
    contentions: &[u64],
    plain: &PlainCommand,
) -> Result<Prepared, NoMemory>
    requires resolved { IsResolved sender.now.under.schema plain.now }
    requires fits { fits sender.now.under.schema plain.now ≡ true }
    requires within { AreWithin sender.now.under.schema contentions.now }
    ensures made { IfOk result (λ it. IsMadeFor sender.now (record { number = number; contentions = contentions.now }) plain.now it.sent) }
    ensures words { IfOk result (λ it. it.words ≡ words_used sender.now plain.now) }
{
    let keyring = sender.keyring();
    let schema = keyring.schema();
    let _fields = schema.fields();
    let Made { command, words } = sender.command(alloc, number, contentions, plain)?;
    let bytes = write_sent(alloc, schema, plain, &command)?;
    let indexed = stored_words(alloc, keyring, plain, &command)?;
    let asked = sought_words(alloc, keyring, plain, &command)?;
    Ok(Prepared {
        sent: Sent {
            bytes,
            indexed,
            asked,
        },
        words,
    })
}
