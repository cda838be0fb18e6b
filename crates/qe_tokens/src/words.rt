//! Words and labels: what an identifier stands for.

ghost use Rattle.std.specs.Prelude.{◌≡◌, IfOk};

use crate::tokens::EcocToken;
use qe_base::{Bytes, Duplicate, Listing, NoMemory};

/// What is counted: one item of a field under one contention factor.
#[derive(Drop)]
pub enum Word {
    /// An item's bytes: a value's, or the text of a range's edge.
    Item {
        field: u32,
        item: Bytes,
        contention: u64,
    },
    /// A token that a row for compaction opened to under another token than its field's.
    Stray {
        token: [u8; 32],
    },
}

/// What an identifier names: a position row, an anchor row (0 is the null anchor), or a document's tag.
#[derive(Clone, Copy, Debug, PartialEq, Eq)]
pub enum LabelKind {
    /// A row for each time that a word was indexed, from 1.
    Position,
    /// A row that a compaction leaves, from 1; 0 is the null anchor, which a cleanup leaves.
    Anchor,
    /// The tag of a document, from 1.
    Tag,
}

/// One numbered thing of a word that has an identifier.
#[derive(Drop)]
pub struct Label {
    /// What it names.
    pub kind: LabelKind,
    /// Whose it is.
    pub word: Word,
    /// Which one of the word's.
    pub number: u64,
}

/// Words.
pub type Words = Listing<Word>;

/// A field's token for compaction and cleanup, which a begin of a job sends.
#[derive(Clone, Copy, Debug, PartialEq, Eq)]
pub struct FieldToken {
    /// The field's number.
    pub field: u32,
    /// What opens the field's rows for compaction.
    pub token: EcocToken,
}

/// Tokens of fields, in rising field number.
pub type TokenList = Listing<FieldToken>;

impl Duplicate for FieldToken {
    fn copy(&self) -> Result<Self, NoMemory> {
        Ok(*self)
    }
}

impl Duplicate for Word {
    fn copy(&self) -> Result<Self, NoMemory> {
        match self {
            Word::Item {
                field,
                item,
                contention,
            } => {
                let item = item.copy()?;
                Ok(Word::Item {
                    field: *field,
                    item,
                    contention: *contention,
                })
            }
            Word::Stray { token } => Ok(Word::Stray { token: *token }),
        }
    }
}

impl Duplicate for Label {
    fn copy(&self) -> Result<Self, NoMemory> {
        let word = self.word.copy()?;
        Ok(Label {
            kind: self.kind,
            word,
            number: self.number,
        })
    }
}
