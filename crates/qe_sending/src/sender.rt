//! What stays of a caller, and what it sends for a plain command.

ghost use Rattle.std.specs.Prelude.{◌≡◌, true, IfOk};
ghost use Rattle.qe_encodes.specs.Draws.{cells_draws, draws_key};
ghost use Rattle.qe_encodes.specs.Sending as sent;
ghost use Rattle.qe_encodes.specs.Callers.{Caller};
ghost use Rattle.qe_plain.specs.declared.command.PlainCommand.TheVariants as p;
ghost use Rattle.qe_fits.specs.Fits.{fits};
ghost use Rattle.qe_schema.specs.Resolved.{IsResolved};
ghost use Rattle.qe_sending.specs.Sendable.{AreLimited, AreWithin, CanSend, CanSendCells, CanSendTerms, stores_none};

use crate::terms::{contention_of, terms_sent};
use crate::tokens::tokens_sent;
use crate::values::sent_value;
use qe_base::{Duplicate, NoMemory, Nonces, Text};
use qe_command::{Command, SentCells};
use qe_keyring::{Draws, Keyring};
use qe_plain::{PlainCell, PlainCommand, PlainDocument, Term};
use qe_seal::hmac;
use std::alloc::Global;
use std::marker::Model;

/// What stays of a caller: the schema and its keys, whether leaf bytes are written, the seed, and the name.
#[derive(Drop)]
pub struct Sender {
    keyring: Keyring,
    leaves: bool,
    seed: [u8; 32],
    name: Text,
    // The key of the caller's words.
    key: [u8; 32],
}

impl Model for Sender {
    ghost use Rattle.qe_encodes.specs.Sending.{Sender as Sending};

    ghost Value = { Sending };

    ghost use Rattle.std.specs.Prelude.{◌≡◌};
    ghost use Rattle.qe_encodes.specs.Draws.{draws_key};

    ghost view = { λ s. record { under = s.keyring; leaves = s.leaves; seed = s.seed; name = s.name } };

    ghost invariant = { λ s. s.key ≡ draws_key s.seed s.name };
}

/// A command, and how many words were drawn for it.
#[derive(Drop)]
pub struct Made {
    /// What is sent.
    pub command: Command,
    /// The place of the next word in the command's stream.
    pub words: u64,
}

// The cells of a command, and how many words were drawn for them.
#[derive(Drop)]
struct MadeCells {
    cells: SentCells,
    words: u64,
}

#[tactic(auto, unfolding(qe_encodes::specs::Draws::draws_key))]
fn key_of_draws(seed: &[u8; 32], name: &str) -> [u8; 32]
    ensures { result ≡ draws_key seed.now name.now }
{
    hmac(seed, name.as_bytes())
}

impl Sender {
    /// A caller of a name, whose words grow from the seed. It writes leaf bytes.
    pub fn new(keyring: Keyring, seed: &[u8; 32], name: Text) -> Sender
        ensures { result ≡ record { under = keyring; leaves = true; seed = seed.now; name = name } }
    {
        let key = key_of_draws(seed, name.as_str());
        Sender {
            keyring,
            leaves: true,
            seed: *seed,
            name,
            key,
        }
    }

    /// Says whether leaf bytes are written.
    pub fn write_leaves(&mut self, on: bool)
        ensures { self.new ≡ record self.old { leaves = on } }
    {
        self.leaves = on;
    }

    /// The schema and its keys.
    pub fn keyring(&self) -> &Keyring
        ensures { result.now ≡ self.now.under }
    {
        &self.keyring
    }

    /// Whether leaf bytes are written.
    pub fn leaves(&self) -> bool
        ensures { result ≡ self.now.leaves }
    {
        self.leaves
    }

    // The words of the command of a number, from a place on.
    fn draws(&self, number: u64, place: u64) -> Draws
        ensures { result ≡ record { stream = sent.stream_of self.now number; place = place } }
    {
        Draws::at(&self.key, number, place)
    }

    /// So many nonces of the command of a number, from a place of its stream on.
    #[tactic(auto, unfolding(qe_encodes::specs::Sending::nonces_at))]
    pub fn nonces(
        &self,
        alloc: Global,
        number: u64,
        place: u64,
        count: usize,
    ) -> Result<Nonces, NoMemory>
        ensures { IfOk result (λ nonces. nonces ≡ sent.nonces_at self.now number place count) }
    {
        let mut draws = self.draws(number, place);
        draws.ivs(alloc, count)
    }

    /// What is sent for a plain command, the caller's command of this number, under the contentions that the caller has learned.
    pub fn command(
        &self,
        alloc: Global,
        number: u64,
        contentions: &[u64],
        plain: &PlainCommand,
    ) -> Result<Made, NoMemory>
        requires resolved { IsResolved self.now.under.schema plain.now }
        requires fits { fits self.now.under.schema plain.now ≡ true }
        requires within { AreWithin self.now.under.schema contentions.now }
        ensures command { IfOk result (λ made. made.command ≡ sent.command_of self.now (record { number = number; contentions = contentions.now }) plain.now) }
        ensures words { IfOk result (λ made. made.words ≡ sent.words_used self.now plain.now) }
    {
        let _fields = self.keyring().schema().fields();
        command_made(alloc, self, number, contentions, plain)
    }
}

// What is sent for a plain command that can be sent.
fn command_made(
    alloc: Global,
    sender: &Sender,
    number: u64,
    contentions: &[u64],
    plain: &PlainCommand,
) -> Result<Made, NoMemory>
    requires can { CanSend sender.now.under.schema plain.now }
    requires limited { AreLimited contentions.now }
    ensures command { IfOk result (λ made. made.command ≡ sent.command_of sender.now (record { number = number; contentions = contentions.now }) plain.now) }
    ensures words { IfOk result (λ made. made.words ≡ sent.words_used sender.now plain.now) }
{
    match plain {
        PlainCommand::Insert { doc } => insert_made(alloc, sender, number, contentions, doc),
        PlainCommand::Update { filter, set } => {
            update_made(
                alloc,
                sender,
                number,
                contentions,
                filter.slice(),
                set.slice(),
            )
        }
        _ => {
            let command = without_cells(alloc, sender.keyring(), contentions, plain)?;
            Ok(Made { command, words: 0 })
        }
    }
}

// The cells of a command of this number.
fn cells_made(
    alloc: Global,
    sender: &Sender,
    number: u64,
    contentions: &[u64],
    cells: &[PlainCell],
) -> Result<MadeCells, NoMemory>
    requires can { CanSendCells sender.now.under.schema cells.now }
    requires limited { AreLimited contentions.now }
    ensures cells { IfOk result (λ made. made.cells ≡ sent.cells_sent sender.now (record { number = number; contentions = contentions.now }) cells.now 0) }
    ensures words { IfOk result (λ made. made.words ≡ cells_draws sender.now.under.schema cells.now) }
{
    let mut made = SentCells::new(alloc);
    let mut draws = sender.draws(number, 0);
    for cell in cells {
        let most = contention_of(contentions, cell.field);
        let value = cell.value.value();
        let sent = sent_value(
            alloc,
            sender.keyring(),
            sender.leaves(),
            cell.field,
            most,
            value,
            &mut draws,
        )?;
        made.push((cell.field, sent))?;
    }
    Ok(MadeCells {
        cells: made,
        words: draws.place(),
    })
}

// What is sent to insert a document.
#[tactic(auto, using(qe_command_parts::proofs::ValueLemmas::value_again), unfolding(qe_encodes::specs::Sending::command_of))]
fn insert_made(
    alloc: Global,
    sender: &Sender,
    number: u64,
    contentions: &[u64],
    document: &PlainDocument,
) -> Result<Made, NoMemory>
    requires can { CanSendCells sender.now.under.schema document.now.cells }
    requires limited { AreLimited contentions.now }
    ensures command { IfOk result (λ made. made.command ≡ sent.command_of sender.now (record { number = number; contentions = contentions.now }) (p.Insert document.now)) }
    ensures words { IfOk result (λ made. made.words ≡ cells_draws sender.now.under.schema document.now.cells) }
{
    let id = document.id.value().copy()?;
    let made = cells_made(alloc, sender, number, contentions, document.cells.slice())?;
    Ok(Made {
        command: Command::Insert {
            id,
            cells: made.cells,
        },
        words: made.words,
    })
}

// What is sent to set fields of the first document that matches.
#[tactic(auto, unfolding(qe_encodes::specs::Sending::command_of))]
fn update_made(
    alloc: Global,
    sender: &Sender,
    number: u64,
    contentions: &[u64],
    terms: &[Term],
    set: &[PlainCell],
) -> Result<Made, NoMemory>
    requires terms { CanSendTerms sender.now.under.schema terms.now }
    requires can { CanSendCells sender.now.under.schema set.now }
    requires limited { AreLimited contentions.now }
    ensures command { IfOk result (λ made. made.command ≡ sent.command_of sender.now (record { number = number; contentions = contentions.now }) (p.Update terms.now set.now)) }
    ensures words { IfOk result (λ made. made.words ≡ cells_draws sender.now.under.schema set.now) }
{
    let filter = terms_sent(alloc, sender.keyring(), contentions, terms)?;
    let made = cells_made(alloc, sender, number, contentions, set)?;
    Ok(Made {
        command: Command::Update {
            filter,
            set: made.cells,
        },
        words: made.words,
    })
}

// What is sent for a command that stores no value. It draws nothing.
#[tactic(auto, unfolding(qe_encodes::specs::Sending::command_of))]
fn without_cells(
    alloc: Global,
    keyring: &Keyring,
    contentions: &[u64],
    plain: &PlainCommand,
) -> Result<Command, NoMemory>
    requires can { CanSend keyring.now.schema plain.now }
    requires limited { AreLimited contentions.now }
    requires none { stores_none plain.now ≡ true }
    ensures { IfOk result (λ command. (sender : sent.Sender) (caller : Caller) → sender.under ≡ keyring.now → caller.contentions ≡ contentions.now
        → command ≡ sent.command_of sender caller plain.now) }
{
    match plain {
        PlainCommand::Find { filter, ids } => {
            let filter = terms_sent(alloc, keyring, contentions, filter.slice())?;
            Ok(Command::Find { filter, ids: *ids })
        }
        PlainCommand::Delete { filter } => {
            let filter = terms_sent(alloc, keyring, contentions, filter.slice())?;
            Ok(Command::Delete { filter })
        }
        PlainCommand::Begin { kind, tokens } => {
            let tokens = tokens_sent(alloc, keyring, tokens.slice())?;
            Ok(Command::Begin {
                kind: *kind,
                tokens,
            })
        }
        PlainCommand::Step { job, limit } => Ok(Command::Step {
            job: *job,
            limit: *limit,
        }),
        PlainCommand::End { job } => Ok(Command::End { job: *job }),
        PlainCommand::Abandon { job } => Ok(Command::Abandon { job: *job }),
        PlainCommand::Raise { field, contention } => Ok(Command::Raise {
            field: *field,
            contention: *contention,
        }),
        _ => unreachable!(),
    }
}
