//! What happened to a word.

use qe_tokens::Word;

/// A word that was indexed, or that was looked for or opened.
#[derive(Drop)]
pub(crate) struct Event {
    pub word: Word,
    /// Whether it was indexed.
    pub indexed: bool,
}
