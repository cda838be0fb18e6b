//! A list of labels with their identifiers.

ghost use Rattle.std.specs.Prelude.{◌≡◌, ◌<◌, ◌↔◌, [], ◌∷◌, ◌++◌, length, slice_index_or, IfOk, OnOk, OnErr, IsTrue, List, ℕ};
ghost use Rattle.qe_tokens.specs.declared.words.Label.{Label};
ghost use Rattle.qe_labels.specs.Clashes.{first_clash};
ghost use Rattle.qe_label_list.specs.Order.{IsInOrder};

use crate::clash::first_repeat_of;
use qe_base::{Duplicate, NoMemory};
use qe_label_rows::Row;
use qe_tokens::{Label, Word};
use std::alloc::Global;
use std::marker::Model;

/// Labels, each with its identifier of 32 bytes, in rising order: by kind, then by word, then by number. Contracts see the
/// list of pairs.
#[derive(Drop)]
pub struct LabelList {
    alloc: Global,
    words: Vec<Word>,
    rows: Vec<Row>,
}

impl Model for LabelList {
    ghost use Rattle.std.specs.Prelude.{List, ℕ};
    ghost use Rattle.qe_tokens.specs.declared.words.Label.{Label};

    ghost Value = { List (Label × List ℕ) };

    ghost use Rattle.qe_label_list.specs.Rows.{entries_of, AreHeld};

    ghost view = { λ a. entries_of a.words.items a.rows.items };

    ghost invariant = { λ a. AreHeld a.words.items a.rows.items };
}

impl LabelList {
    ghost use Rattle.qe_label_list.specs.Rows.{entries_of, AreHeld};

    /// The empty list.
    pub fn new(alloc: Global) -> Self
        ensures { result ≡ [] }
    {
        LabelList {
            alloc,
            words: Vec::new(alloc),
            rows: Vec::new(alloc),
        }
    }

    // The labels of rows, whose words stand in the list of words.
    pub(crate) fn from_rows(alloc: Global, words: Vec<Word>, rows: Vec<Row>) -> Self
        requires { AreHeld words.items rows.items }
        ensures { result ≡ entries_of words.items rows.items }
    {
        LabelList { alloc, words, rows }
    }

    /// The number of labels.
    pub fn len(&self) -> usize
        ensures { result ≡ length self.now }
    {
        self.rows.len()
    }

    /// Whether there is no label.
    pub fn is_empty(&self) -> bool
        ensures { IsTrue result ↔ (self.now ≡ []) }
    {
        self.rows.is_empty()
    }

    /// The label at a place.
    pub fn label(&self, place: usize) -> Result<Label, NoMemory>
        requires { place < length self.now }
        ensures { IfOk result (λ label. (other : Label × List ℕ) → label ≡ (slice_index_or self.now place other).0) }
    {
        let row = self.rows[place];
        let word = self.words[row.word].copy()?;
        Ok(Label {
            kind: row.kind,
            word,
            number: row.number,
        })
    }

    /// The identifier of the label at a place.
    pub fn identifier(&self, place: usize) -> [u8; 32]
        requires { place < length self.now }
        ensures { (other : Label × List ℕ) → result ≡ (slice_index_or self.now place other).1 }
    {
        self.rows[place].identifier
    }

    /// Adds a label that stands behind all others.
    pub fn push(&mut self, label: Label, identifier: [u8; 32]) -> Result<(), NoMemory>
        requires { IsInOrder (self.old ++ (label, identifier) ∷ []) }
        ensures ok { OnOk result (self.new ≡ self.old ++ (label, identifier) ∷ []) }
        ensures err { OnErr result (self.new ≡ self.old) }
    {
        let Label { kind, word, number } = label;
        let place = self.words.len();
        self.words.push(word)?;
        self.rows.push(Row {
            kind,
            word: place,
            number,
            identifier,
        })?;
        Ok(())
    }

    /// The first two labels that are both tags or both rows, and share an identifier: those whose second label stands first
    /// in the order, and of these the one whose first label does.
    pub fn clash(&self) -> Result<Option<(Label, Label)>, NoMemory>
        ensures { IfOk result (λ found. found ≡ first_clash self.now) }
    {
        match first_repeat_of(self.alloc, &self.rows)? {
            Some((first, second)) => {
                let one = self.label(first)?;
                let other = self.label(second)?;
                Ok(Some((one, other)))
            }
            None => Ok(None),
        }
    }
}
