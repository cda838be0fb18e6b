//! Rows kind by kind: laid out without identifiers, and then with them.

ghost use Rattle.std.specs.Prelude.{◌≡◌, ◌-◌, ℕ, ◌<◌, List, ◌++◌, map, length, IfOk, OnOk};
ghost use Rattle.qe_label_rows.specs.Batches.{AreKeys, blank};
ghost use Rattle.qe_label_rows.specs.Made.{rows_from, rows_of_all, rows_of_kind, rows_of_word};

use crate::batch::identify;
use crate::keys::keys_of;
use crate::row::{Row, WordTokens};
use qe_base::NoMemory;
use qe_lanes::LaneKey;
use qe_tokens::LabelKind;
use std::alloc::Global;

// Adds the rows of a word's numbers from the first up to the end, without identifiers.
fn push_numbers(
    rows: &mut Vec<Row>,
    kind: LabelKind,
    word: usize,
    first: u64,
    end: u64,
) -> Result<(), NoMemory>
    ensures { (key : List ℕ) → OnOk result (rows.new.items ≡ rows.old.items ++ map blank (rows_from kind word key first (end - first))) }
{
    for number in first..end {
        rows.push(Row {
            kind,
            word,
            number,
            identifier: [0; 32],
        })?;
    }
    Ok(())
}

// Adds a word's rows of a kind, without identifiers.
fn push_word(
    rows: &mut Vec<Row>,
    kind: LabelKind,
    word: usize,
    tokens: &WordTokens,
) -> Result<(), NoMemory>
    ensures { OnOk result (rows.new.items ≡ rows.old.items ++ map blank (rows_of_word kind word tokens.now)) }
{
    match kind {
        LabelKind::Position => push_numbers(rows, kind, word, 1, tokens.end),
        LabelKind::Anchor => push_numbers(rows, kind, word, 0, tokens.end),
        LabelKind::Tag if tokens.has_tags => push_numbers(rows, kind, word, 1, tokens.end),
        LabelKind::Tag => Ok(()),
    }
}

// Adds all rows of a kind, without identifiers.
fn push_kind(rows: &mut Vec<Row>, kind: LabelKind, words: &[WordTokens]) -> Result<(), NoMemory>
    ensures { OnOk result (rows.new.items ≡ rows.old.items ++ map blank (rows_of_kind kind 0 words.now)) }
{
    for (place, tokens) in words.iter().enumerate() {
        push_word(rows, kind, place, tokens)?;
    }
    Ok(())
}

// Adds all rows of a kind.
fn push_identified(
    rows: &mut Vec<Row>,
    kind: LabelKind,
    words: &[WordTokens],
    keys: &[LaneKey],
) -> Result<(), NoMemory>
    requires { AreKeys kind keys.now words.now }
    ensures { OnOk result (rows.new.items ≡ rows.old.items ++ rows_of_kind kind 0 words.now) }
{
    let begin = rows.len();
    push_kind(rows, kind, words)?;
    identify(&mut rows[begin..], kind, keys);
    Ok(())
}

/// All rows of words: their positions, then their anchors, then their tags, each kind by word and then by number.
pub fn rows_of(alloc: Global, words: &[WordTokens]) -> Result<Vec<Row>, NoMemory>
    ensures { IfOk result (λ rows. rows.items ≡ rows_of_all words.now) }
{
    let mut rows = Vec::new(alloc);
    let of_rows = keys_of(alloc, LabelKind::Position, words)?;
    push_identified(&mut rows, LabelKind::Position, words, &of_rows)?;
    push_identified(&mut rows, LabelKind::Anchor, words, &of_rows)?;
    let of_tags = keys_of(alloc, LabelKind::Tag, words)?;
    push_identified(&mut rows, LabelKind::Tag, words, &of_tags)?;
    Ok(rows)
}
