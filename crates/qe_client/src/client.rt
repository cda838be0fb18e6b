//! The client of a caller.

ghost use Rattle.std.specs.Prelude.{◌≡◌, ◌+◌, ◌*◌, ◌≤◌, length, map, true, IfOk, OnOk, OnErr};
ghost use Rattle.qe_base.specs.Answers.{Answers};
ghost use Rattle.qe_field.specs.Lookup.{encrypted_numbers};
ghost use Rattle.qe_fits.specs.Fits.{fits};
ghost use Rattle.qe_schema.specs.Resolved.{IsResolved};
ghost use Rattle.qe_protocol.specs.Journal.{first_contention};
ghost use Rattle.qe_protocol.specs.Next.{outcome_of};
ghost use Rattle.qe_encodes.specs.Callers.{contention_of, learned};
ghost use Rattle.qe_encodes.specs.Sending.{nonces_at};
ghost use Rattle.qe_standing.specs.Laws.{CanLearn};
ghost use Rattle.qe_opening.specs.Answer.{answer_of};
ghost use Rattle.qe_opening.specs.Faults.{read_refusal};
ghost use Rattle.qe_client.specs.Clients.{IsCommanded, new_client, with_contentions, with_leaves};

use crate::sent::{Prepared, Sent, prepare};
use qe_base::{NoMemory, Nonces, Text};
use qe_field::Field;
use qe_keyring::Keyring;
use qe_opening::{OpeningKeys, ReadFault, opening_keys};
use qe_plain::{PlainCommand, PlainReply};
use qe_protocol::Reply;
use qe_schema::{FieldKind, Keys, Schema};
use qe_sending::Sender;
use std::alloc::Global;
use std::marker::Model;

/// The client of a caller: it holds a schema with its keys, makes the caller's commands one after another, and reads replies.
/// Contracts see what stays of the caller, and how far it has come.
#[derive(Drop)]
pub struct Client {
    alloc: Global,
    sender: Sender,
    keys: Keys,
    openers: OpeningKeys,
    // Of each field, as far as the caller has learned it.
    contentions: Vec<u64>,
    // The next command's number.
    number: u64,
    // The number of the command whose words are drawn, and how many were.
    begun: u64,
    used: u64,
}

impl Model for Client {
    ghost use Rattle.qe_client.specs.Clients.{Held};

    ghost Value = { Held };

    ghost use Rattle.qe_client.specs.Inside.{IsWhole};

    ghost view = { λ c. record {
      sender = c.sender;
      caller = record { number = c.number; contentions = c.contentions.items };
      begun = c.begun;
      used = c.used;
    } };

    ghost invariant = { λ c. IsWhole c.sender.under c.keys c.openers c.contentions.items };
}

// A field's contention at first; a plain field has none.
fn contention_at_first(kind: &FieldKind) -> u64
    ensures { result ≡ first_contention kind.now }
{
    match kind {
        FieldKind::Plain => 0,
        FieldKind::Equality { contention, .. } | FieldKind::Range { contention, .. } => *contention,
    }
}

// Each field's.
fn contentions_at_first(alloc: Global, fields: &[Field]) -> Result<Vec<u64>, NoMemory>
    ensures { IfOk result (λ all. all.items ≡ map (λ field. first_contention field.kind) fields.now) }
{
    let mut all = Vec::with_capacity(alloc, fields.len())?;
    for field in fields {
        all.push(contention_at_first(&field.kind))?;
    }
    Ok(all)
}

// The number of words after so many nonces more. No memory holds nonces of more words than a number does.
fn words_after(used: u64, count: usize) -> Result<u64, NoMemory>
    ensures { IfOk result (λ words. words ≡ used + 4 * count) }
{
    if count as u64 > (u64::MAX - used) / 4 {
        return Err(NoMemory);
    }
    Ok(used + 4 * count as u64)
}

impl Client {
    /// The client of a caller of a name. Its random words are those of ChaCha20 (RFC 8439) under the HMAC (RFC 2104) of the name
    /// under the seed, a stream for each command. It writes leaf bytes, and has each field's contention of the schema. Keys
    /// stand in the order of the encrypted fields.
    pub fn new(
        alloc: Global,
        schema: Schema,
        keys: Keys,
        seed: [u8; 32],
        caller: Text,
    ) -> Result<Client, NoMemory>
        requires { length keys ≡ length (encrypted_numbers schema) }
        ensures { IfOk result (λ client. client ≡ new_client (record { schema = schema; keys = keys }) seed caller) }
    {
        let openers = opening_keys(alloc, &schema, &keys)?;
        let contentions = contentions_at_first(alloc, schema.fields())?;
        let keyring = Keyring::new(alloc, schema, &keys)?;
        Ok(Client {
            alloc,
            sender: Sender::new(keyring, &seed, caller),
            keys,
            openers,
            contentions,
            number: 0,
            begun: 0,
            used: 0,
        })
    }

    /// Says whether leaf bytes are written with the edges of range fields.
    pub fn write_leaves(&mut self, on: bool)
        ensures { self.new ≡ with_leaves self.old on }
    {
        self.sender.write_leaves(on);
    }

    /// The contention of a field, as far as the caller has learned it.
    pub fn contention(&self, field: u32) -> u64
        ensures { result ≡ contention_of self.now.caller.contentions field }
    {
        match self.contentions.get(field as usize) {
            Some(contention) => *contention,
            None => 0,
        }
    }

    /// What is sent for a plain command that was resolved under the schema and fits it, the caller's next one: its random words
    /// are those of its number, which counts from 0, modulo 2^64. Where memory is wanting, the number isn't used.
    pub fn command(&mut self, plain: &PlainCommand) -> Result<Sent, NoMemory>
        requires resolved { IsResolved self.old.sender.under.schema plain.now }
        requires fits { fits self.old.sender.under.schema plain.now ≡ true }
        ensures ok { IfOk result (IsCommanded self.old self.new plain.now) }
        ensures err { OnErr result (self.new ≡ self.old) }
    {
        let number = self.number;
        let Prepared { sent, words } = prepare(
            self.alloc,
            &self.sender,
            number,
            &self.contentions,
            plain,
        )?;
        self.begun = number;
        self.used = words;
        self.number = number.wrapping_add(1);
        Ok(sent)
    }

    /// So many nonces of the last command, 16 bytes each: the random words that follow in its stream, four each, every word
    /// with its lowest byte first.
    pub fn nonces(&mut self, number: usize) -> Result<Nonces, NoMemory>
        ensures nonces { IfOk result (λ nonces. nonces ≡ nonces_at self.old.sender self.old.begun self.old.used number) }
        ensures many { IfOk result (λ nonces. length nonces ≡ number) }
        ensures others { self.new ≡ record self.old { used = self.new.used } }
        ensures used { OnOk result (self.new.used ≡ self.old.used + 4 * number) }
        ensures err { OnErr result (self.new ≡ self.old) }
    {
        let used = words_after(self.used, number)?;
        let nonces = self
            .sender
            .nonces(self.alloc, self.begun, self.used, number)?;
        self.used = used;
        Ok(nonces)
    }

    /// The reply as its user sees it, with each stored value opened; or the first cell without a value, in the order of rows
    /// and cells, and why it has none.
    pub fn answer(&self, reply: &Reply) -> Result<PlainReply, ReadFault>
        ensures exact { Answers (λ it. it) read_refusal result (answer_of self.now.sender.under reply.now) }
    {
        qe_opening::answer(self.alloc, self.openers.slice(), reply)
    }

    /// Learns what the reply to a command tells of contentions: of a raise that of its field, raised or not, and of a filter
    /// with too few factors that of the term's field. It is such a reply as can be learned: the field is an encrypted one of
    /// the schema, and the contention at most its greatest.
    pub fn learn(&mut self, plain: &PlainCommand, reply: &Reply)
        requires { CanLearn self.old.sender.under.schema plain.now (outcome_of reply.now) }
        ensures { self.new ≡ with_contentions self.old (learned self.old.caller.contentions plain.now (outcome_of reply.now)) }
    {
        qe_opening::learn(self.contentions.as_mut_slice(), plain, reply);
    }

    // The schema.
    pub(crate) fn schema(&self) -> &Schema
        ensures { result.now ≡ self.now.sender.under.schema }
    {
        self.sender.keyring().schema()
    }

    // The keys of its encrypted fields.
    pub(crate) fn keys(&self) -> &Keys
        ensures keys { result.now ≡ self.now.sender.under.keys }
        ensures many { length self.now.sender.under.keys ≡ length (encrypted_numbers self.now.sender.under.schema) }
    {
        &self.keys
    }
}
