//! Labels, as they are printed.

ghost use Rattle.std.specs.Prelude.{◌≡◌, IfOk, string_bytes};
ghost use Rattle.qe_run_texts.specs.Labels as labels;

use qe_base::{Bytes, NoMemory};
use qe_field::path_of;
use qe_schema::{Field, Schema};
use qe_tokens::{Label, LabelKind, Word};
use std::alloc::Global;

// The word of a kind of label.
fn kind_word(kind: LabelKind) -> &'static str
    ensures { result.now ≡ labels.kind_word kind }
{
    match kind {
        LabelKind::Position => "position",
        LabelKind::Anchor => "anchor",
        LabelKind::Tag => "tag",
    }
}

// An item's word: `PATH ITEM U`.
fn item_text(alloc: Global, path: &str, item: &[u8], contention: u64) -> Result<String, NoMemory>
    ensures { IfOk result (λ text. string_bytes text ≡ labels.item_text path.now item.now contention) }
{
    let item = hex::encode(alloc, item)?;
    Ok(format!(in alloc; "{path} {item} {contention}")?)
}

// A stray word: `stray TOKEN`.
fn stray_text(alloc: Global, token: &[u8; 32]) -> Result<String, NoMemory>
    ensures { IfOk result (λ text. string_bytes text ≡ labels.stray_text token.now) }
{
    let token = hex::encode(alloc, token.as_slice())?;
    Ok(format!(in alloc; "stray {token}")?)
}

fn word_text(alloc: Global, fields: &[Field], word: &Word) -> Result<String, NoMemory>
    ensures { IfOk result (λ text. string_bytes text ≡ labels.word_text fields.now word.now) }
{
    match word {
        Word::Item {
            field,
            item,
            contention,
        } => item_text(alloc, path_of(fields, *field), item.slice(), *contention),
        Word::Stray { token } => stray_text(alloc, token),
    }
}

// A label: `KIND PATH ITEM U I`, or `KIND stray TOKEN I`.
#[tactic(auto, unfolding(crate::specs::Labels::label_text))]
fn label_text(alloc: Global, fields: &[Field], label: &Label) -> Result<String, NoMemory>
    ensures { IfOk result (λ text. string_bytes text ≡ labels.label_text fields.now label.now) }
{
    let kind = kind_word(label.kind);
    let word = word_text(alloc, fields, &label.word)?;
    let number = label.number;
    Ok(format!(in alloc; "{kind} {word} {number}")?)
}

/// The line `clash LABEL LABEL` of two labels that share an identifier. A LABEL is `position PATH ITEM U I` of an item's bytes
/// in hex under the contention factor U, or `position stray TOKEN I`; `anchor` and `tag` likewise.
pub fn clash_line(
    alloc: Global,
    schema: &Schema,
    first: &Label,
    second: &Label,
) -> Result<Bytes, NoMemory>
    ensures { IfOk result (λ line. line ≡ labels.clash_line schema.now first.now second.now) }
{
    let first = label_text(alloc, schema.fields(), first)?;
    let second = label_text(alloc, schema.fields(), second)?;
    let line = format!(in alloc; "clash {first} {second}\n")?;
    Bytes::from_slice(alloc, line.as_bytes())
}
