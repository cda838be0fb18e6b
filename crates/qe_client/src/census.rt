//! The words of a run, as its clients tell them.

ghost use Rattle.std.specs.Prelude.{◌≡◌, map, IfOk, OnOk, OnErr};
ghost use Rattle.std.specs.FinMap.{empty};
ghost use Rattle.qe_labels.specs.Clashes.{first_clash, with_identifier};
ghost use Rattle.qe_labels.specs.Listed.{labels};
ghost use Rattle.qe_labels.specs.Numbers.{all_learned};
ghost use Rattle.qe_labels.specs.Under.{root_of};
ghost use Rattle.qe_census.specs.Noted.{HasFields, with_words};
ghost use Rattle.qe_census.specs.Roots.{IsEncrypted};
ghost use Rattle.qe_strays.specs.Strays.{strays_in};

use crate::client::Client;
use crate::sent::Sent;
use qe_base::NoMemory;
use qe_census::{Census as Words, LabelList};
use qe_protocol::JournalEntry;
use qe_strays::strays_of;
use qe_tokens::Label;
use std::alloc::Global;
use std::marker::Model;

/// The words of a run, and how often each was indexed. Contracts see the words with their numbers.
#[derive(Drop)]
pub struct Census {
    alloc: Global,
    words: Words,
}

impl Model for Census {
    ghost use Rattle.std.specs.Coded.{coded_ℕ};
    ghost use Rattle.std.specs.FinMap.{code};
    ghost use Rattle.qe_tokens.specs.contracts.words.Word as word;
    ghost use Rattle.qe_labels.specs.Numbers.{Numbers};

    ghost Value = { Numbers };

    ghost coded = { code word.the_row.coded coded_ℕ };

    ghost view = { λ census. census.words };
}

impl Census {
    /// No words.
    pub fn new(alloc: Global) -> Census
        ensures { result ≡ empty }
    {
        Census {
            alloc,
            words: Words::new(alloc),
        }
    }

    /// Adds the words that a command's filter asks for, and those that it indexed where it was accepted: where it was answered
    /// that a document was inserted or updated.
    pub fn add(&mut self, sent: &Sent, accepted: bool) -> Result<(), NoMemory>
        ensures ok { OnOk result (self.new ≡ with_words self.old sent.now.asked sent.now.indexed accepted) }
        ensures err { OnErr result (self.new ≡ self.old) }
    {
        self.words
            .add(sent.indexed.slice(), sent.asked.slice(), accepted)
    }

    /// Adds the stray words of a journal: those of rows that a step opened under another token than their field's.
    pub fn strays(&mut self, client: &Client, journal: &[JournalEntry]) -> Result<(), NoMemory>
        ensures ok { OnOk result (self.new ≡ all_learned self.old (strays_in client.now.sender.under journal.now)) }
        ensures err { OnErr result (self.new ≡ self.old) }
    {
        let strays = strays_of(self.alloc, client.schema(), client.keys(), journal)?;
        self.words.add(&[], strays.slice(), false)
    }

    /// All labels of the words with their identifiers, in order. Each item's field is an encrypted one of the client's schema.
    pub fn labels(&self, client: &Client) -> Result<LabelList, NoMemory>
        requires { HasFields (IsEncrypted client.now.sender.under.schema) self.now }
        ensures { IfOk result (λ list. list ≡ map (with_identifier (root_of client.now.sender.under)) (labels self.now)) }
    {
        self.words.labels(client.schema(), client.keys())
    }

    /// The first two labels of a list that are both tags or both rows, and share an identifier: those whose second label
    /// stands first in the order, and of these the one whose first label does.
    pub fn clash(labels: &LabelList) -> Result<Option<(Label, Label)>, NoMemory>
        ensures { IfOk result (λ found. found ≡ first_clash labels.now) }
    {
        Words::clash(labels)
    }
}
