//! The words of a command.

ghost use Rattle.std.specs.Prelude.{◌≡◌, ◌++◌, All, IfOk, OnOk};
ghost use Rattle.qe_encodes.specs.Words as spec;
ghost use Rattle.qe_sending.specs.Sendable.{CanSend, CanSendCell, CanSendTerm};

use crate::items::{term_items, value_items};
use crate::push::{push_items, push_under};
use qe_base::NoMemory;
use qe_command::{Command, SentCell, SentTerm};
use qe_keyring::Keyring;
use qe_plain::{PlainCell, PlainCommand, Term};
use qe_tokens::Words;
use std::alloc::Global;

// Adds the words of a value under the factor that was sent.
fn push_cell(
    alloc: Global,
    words: &mut Words,
    keyring: &Keyring,
    cell: &PlainCell,
    sent: &SentCell,
) -> Result<(), NoMemory>
    requires { CanSendCell keyring.now.schema cell.now }
    ensures { OnOk result (words.new ≡ words.old ++ spec.cell_words keyring.now.schema cell.now sent.now) }
{
    match sent {
        SentCell::Plain(_) => Ok(()),
        SentCell::Payload(payload) => {
            let items = value_items(alloc, &keyring.kind_at(cell.field), cell.value.value())?;
            let factor = payload.k.unsigned_abs();
            push_under(alloc, words, cell.field, factor, items.slice())
        }
    }
}

// The words of values and what was sent for them.
fn cells_words(
    alloc: Global,
    keyring: &Keyring,
    cells: &[PlainCell],
    sents: &[(u32, SentCell)],
) -> Result<Words, NoMemory>
    requires { All (CanSendCell keyring.now.schema) cells.now }
    ensures { IfOk result (λ words. words ≡ spec.cells_words keyring.now.schema cells.now sents.now) }
{
    let mut words = Words::new(alloc);
    for i in 0..cells.len().min(sents.len()) {
        let (_, sent) = &sents[i];
        push_cell(alloc, &mut words, keyring, &cells[i], sent)?;
    }
    Ok(words)
}

// Adds the words of a term under each factor up to the one that was sent.
fn push_term(
    alloc: Global,
    words: &mut Words,
    keyring: &Keyring,
    term: &Term,
    sent: &SentTerm,
) -> Result<(), NoMemory>
    requires { CanSendTerm keyring.now.schema term.now }
    ensures { OnOk result (words.new ≡ words.old ++ spec.term_words keyring.now.schema term.now sent.now) }
{
    match sent {
        SentTerm::Id(_) => Ok(()),
        SentTerm::Equal { field, payload } => {
            let items = term_items(alloc, keyring, term)?;
            let greatest = payload.cm.unsigned_abs();
            push_items(alloc, words, *field, items.slice(), greatest)
        }
        SentTerm::Range { field, payload } => {
            let items = term_items(alloc, keyring, term)?;
            let greatest = payload.cm.unsigned_abs();
            push_items(alloc, words, *field, items.slice(), greatest)
        }
    }
}

// The words of terms and what was sent for them.
fn terms_words(
    alloc: Global,
    keyring: &Keyring,
    terms: &[Term],
    sents: &[SentTerm],
) -> Result<Words, NoMemory>
    requires { All (CanSendTerm keyring.now.schema) terms.now }
    ensures { IfOk result (λ words. words ≡ spec.terms_words keyring.now.schema terms.now sents.now) }
{
    let mut words = Words::new(alloc);
    for i in 0..terms.len().min(sents.len()) {
        push_term(alloc, &mut words, keyring, &terms[i], &sents[i])?;
    }
    Ok(words)
}

// The values that a plain command stores.
fn plain_cells(plain: &PlainCommand) -> &[PlainCell]
    ensures { result.now ≡ spec.plain_cells plain.now }
{
    match plain {
        PlainCommand::Insert { doc } => doc.cells.slice(),
        PlainCommand::Update { set, .. } => set.slice(),
        _ => &[],
    }
}

// The values that a command stores.
fn sent_cells(command: &Command) -> &[(u32, SentCell)]
    ensures { result.now ≡ spec.sent_cells command.now }
{
    match command {
        Command::Insert { cells, .. } => cells.slice(),
        Command::Update { set, .. } => set.slice(),
        _ => &[],
    }
}

// The terms that a plain command looks for.
fn plain_terms(plain: &PlainCommand) -> &[Term]
    ensures { result.now ≡ spec.plain_terms plain.now }
{
    match plain {
        PlainCommand::Find { filter, .. } => filter.slice(),
        PlainCommand::Update { filter, .. } => filter.slice(),
        PlainCommand::Delete { filter } => filter.slice(),
        _ => &[],
    }
}

// The terms that a command looks for.
fn sent_terms(command: &Command) -> &[SentTerm]
    ensures { result.now ≡ spec.sent_terms command.now }
{
    match command {
        Command::Find { filter, .. } => filter.slice(),
        Command::Update { filter, .. } => filter.slice(),
        Command::Delete { filter } => filter.slice(),
        _ => &[],
    }
}

/// The words of the values that a command stores, in the order of its cells: each item under the contention factor that was
/// sent with it.
pub fn stored_words(
    alloc: Global,
    keyring: &Keyring,
    plain: &PlainCommand,
    command: &Command,
) -> Result<Words, NoMemory>
    requires { CanSend keyring.now.schema plain.now }
    ensures { IfOk result (λ words. words ≡ spec.stored_words keyring.now.schema plain.now command.now) }
{
    cells_words(alloc, keyring, plain_cells(plain), sent_cells(command))
}

/// The words that a command's filter looks for, in the order of its terms: each item under each factor from 0 to the one
/// that was sent.
pub fn sought_words(
    alloc: Global,
    keyring: &Keyring,
    plain: &PlainCommand,
    command: &Command,
) -> Result<Words, NoMemory>
    requires { CanSend keyring.now.schema plain.now }
    ensures { IfOk result (λ words. words ≡ spec.sought_words keyring.now.schema plain.now command.now) }
{
    terms_words(alloc, keyring, plain_terms(plain), sent_terms(command))
}
