//! What a label's row is made of, and what it holds.

use qe_tokens::LabelKind;

/// A label whose word stands at a place of a list, with its identifier.
#[derive(Clone, Copy)]
pub struct Row {
    /// The kind of the label.
    pub kind: LabelKind,
    /// The place of its word.
    pub word: usize,
    /// Its number.
    pub number: u64,
    /// Its identifier.
    pub identifier: [u8; 32],
}

/// The tokens of a word that its identifiers come from, and how many labels it has.
#[derive(Clone, Copy)]
pub struct WordTokens {
    /// That of its rows, its positions and anchors (`EscContention`): a stray word is one.
    pub rows: [u8; 32],
    /// That of its tags (`EdcContention`), where it has tags.
    pub tags: [u8; 32],
    /// Whether it has tags, which a stray word hasn't.
    pub has_tags: bool,
    /// The number behind its last one.
    pub end: u64,
}
