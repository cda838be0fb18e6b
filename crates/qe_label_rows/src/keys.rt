//! The key states of words, sixteen hashed at once.

ghost use Rattle.std.specs.Prelude.{◌≡◌, ℕ, ◌<◌, ◌++◌, List, [], length, take, IfOk, OnOk};
ghost use Rattle.std.specs.List.{slice_index_or};
ghost use Rattle.qe_lanes.specs.Keys.{IsKeyedIn};
ghost use Rattle.qe_label_rows.specs.declared.row.WordTokens.{WordTokens};
ghost use Rattle.qe_label_rows.specs.Batches.{AreKeys};
ghost use Rattle.qe_label_rows.specs.Made.{key_for, token_for};

use crate::row::WordTokens;
use qe_base::NoMemory;
use qe_lanes::{LaneKey, LaneKeys};
use qe_tokens::LabelKind;
use std::alloc::Global;

/// The number of `EscTag` and of `EdcTwice` under a word's token.
const NUMBER: u64 = 1;

// The token that a word's identifiers of a kind come from.
fn token_for(kind: LabelKind, tokens: &WordTokens) -> [u8; 32]
    ensures { result ≡ token_for kind tokens.now }
{
    match kind {
        LabelKind::Position | LabelKind::Anchor => tokens.rows,
        LabelKind::Tag => tokens.tags,
    }
}

// Those of the first sixteen words; where there are fewer, zeros.
fn first_tokens(kind: LabelKind, words: &[WordTokens]) -> [[u8; 32]; 16]
    ensures { (lane : ℕ) (d : WordTokens) → lane < 16 → lane < length words.now
        → slice_index_or result lane [] ≡ token_for kind (slice_index_or words.now lane d) }
{
    let mut tokens = [[0; 32]; 16];
    for lane in 0..words.len().min(16) {
        tokens[lane] = token_for(kind, &words[lane]);
    }
    tokens
}

// The keys of the first sixteen words, each in a lane.
fn first_keys(kind: LabelKind, words: &[WordTokens]) -> LaneKeys
    ensures { (lane : ℕ) (d : WordTokens) → lane < 16 → lane < length words.now
        → IsKeyedIn result lane (key_for kind (slice_index_or words.now lane d)) }
{
    let tokens = LaneKeys::new(&first_tokens(kind, words));
    LaneKeys::new(&tokens.prf1(&[NUMBER; 16]))
}

// Adds the keys of the first sixteen words.
fn push_keys(keys: &mut Vec<LaneKey>, kind: LabelKind, words: &[WordTokens]) -> Result<(), NoMemory>
    ensures { (before : List WordTokens) → AreKeys kind keys.old.items before
        → OnOk result (AreKeys kind keys.new.items (before ++ take 16 words.now)) }
{
    let lanes = first_keys(kind, words);
    for lane in 0..words.len().min(16) {
        keys.push(lanes.key(lane))?;
    }
    Ok(())
}

// The key of each word under which its identifiers of a kind stand.
pub(crate) fn keys_of(
    alloc: Global,
    kind: LabelKind,
    words: &[WordTokens],
) -> Result<Vec<LaneKey>, NoMemory>
    ensures { IfOk result (λ keys. AreKeys kind keys.items words.now) }
{
    let mut keys = Vec::with_capacity(alloc, words.len())?;
    for i in 0..words.len().div_ceil(16) {
        push_keys(&mut keys, kind, &words[16 * i..])?;
    }
    Ok(keys)
}
