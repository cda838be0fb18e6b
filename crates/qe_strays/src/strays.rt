//! The stray words of a journal.

ghost use Rattle.std.specs.Prelude.{◌≡◌, ◌≤◌, ◌++◌, bytes_eq, length, not, IfOk, OnOk};
ghost use Rattle.qe_encodes.specs.Payloads.{ecoc_token};
ghost use Rattle.qe_protocol.specs.Units.{token_for as token_sent};
ghost use Rattle.qe_strays.specs.Strays.{opened_strays, strays_in, tokens_after as tokens_next};

use qe_base::{Count, Listing, NoMemory};
use qe_field::encrypted_numbers;
use qe_protocol::{Command, JournalEntry, Outcome};
use qe_schema::{Keys, Schema};
use qe_seal::HmacKey;
use qe_tokens::{
    CollectionsLevel1, EcocToken, FieldToken, Word, Words, collections, ecoc, root_key,
};
use std::alloc::Global;

// A field's token for compaction and cleanup. A field behind the last key has the empty one.
fn field_token(
    alloc: Global,
    schema: &Schema,
    keys: &Keys,
    field: usize,
) -> Result<EcocToken, NoMemory>
    requires { field ≤ length schema.now }
    ensures { IfOk result (λ token. token.0 ≡ ecoc_token (record { schema = schema.now; keys = keys.now }) field) }
{
    let fields = schema.fields();
    let place = encrypted_numbers(alloc, &fields[..field])?.len();
    if place < keys.len() {
        Ok(ecoc(&collections(&root_key(keys.key(place)))))
    } else {
        let level = HmacKey::new(&[]).prf1(1);
        Ok(ecoc(&CollectionsLevel1(level)))
    }
}

// The token that was sent for a field; zeros where none was.
fn token_for(tokens: &[FieldToken], field: u64) -> [u8; 32]
    ensures { result ≡ token_sent tokens.now field }
{
    for sent in tokens {
        if u64::from(sent.field) == field {
            return sent.token.0;
        }
    }
    [0; 32]
}

// Whether a row of a field was opened under another token than the field's.
fn is_stray(
    alloc: Global,
    schema: &Schema,
    keys: &Keys,
    tokens: &[FieldToken],
    field: u64,
) -> Result<bool, NoMemory>
    ensures { IfOk result (λ stray. stray
        ≡ not (bytes_eq (token_sent tokens.now field) (ecoc_token (record { schema = schema.now; keys = keys.now }) field))) }
{
    let number = (field as usize).min(schema.len());
    let own = field_token(alloc, schema, keys, number)?;
    Ok(token_for(tokens, field) != own.0)
}

// Adds the stray words of rows that a step opened.
fn push_opened(
    alloc: Global,
    words: &mut Words,
    schema: &Schema,
    keys: &Keys,
    tokens: &[FieldToken],
    opened: &[u64],
    counts: &[Count],
) -> Result<(), NoMemory>
    ensures { OnOk result (words.new
        ≡ words.old ++ opened_strays (record { schema = schema.now; keys = keys.now }) tokens.now opened.now counts.now) }
{
    for i in 0..opened.len().min(counts.len()) {
        if is_stray(alloc, schema, keys, tokens, opened[i])? {
            words.push(Word::Stray {
                token: counts[i].token,
            })?;
        }
    }
    Ok(())
}

// The tokens of the last job that was begun, after an entry.
fn tokens_after<'a>(before: &'a [FieldToken], entry: &'a JournalEntry) -> &'a [FieldToken]
    ensures { result.now ≡ tokens_next before.now entry.now.command entry.now.outcome }
{
    match &entry.command {
        Command::Begin { tokens, .. } => match entry.outcome {
            Outcome::Begun(_) => tokens.slice(),
            _ => before,
        },
        _ => before,
    }
}

/// The stray words of a journal under a schema and its keys, in order: a word for each row that a step opened under another
/// token than its field's.
pub fn strays_of(
    alloc: Global,
    schema: &Schema,
    keys: &Keys,
    journal: &[JournalEntry],
) -> Result<Words, NoMemory>
    ensures { IfOk result (λ words. words ≡ strays_in (record { schema = schema.now; keys = keys.now }) journal.now) }
{
    let mut words = Listing::new(alloc);
    let mut tokens: &[FieldToken] = &[];
    for entry in journal {
        push_opened(
            alloc,
            &mut words,
            schema,
            keys,
            tokens,
            entry.opened.slice(),
            entry.counts.slice(),
        )?;
        tokens = tokens_after(tokens, entry);
    }
    Ok(words)
}
