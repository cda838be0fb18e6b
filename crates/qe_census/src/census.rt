//! The census of a run.

ghost use Rattle.std.specs.Prelude.{◌≡◌, ◌++◌, length, map, take, IfOk, OnOk, OnErr};
ghost use Rattle.std.specs.FinMap.{empty};
ghost use Rattle.qe_field.specs.Lookup.{encrypted_numbers};
ghost use Rattle.qe_labels.specs.Clashes.{first_clash, with_identifier};
ghost use Rattle.qe_labels.specs.Listed.{labels};
ghost use Rattle.qe_labels.specs.Under.{root_of};
ghost use Rattle.qe_census.specs.Events.{command_events, events_of};
ghost use Rattle.qe_census.specs.Noted.{HasFields, with_words};
ghost use Rattle.qe_census.specs.Roots.{IsEncrypted};

use crate::event::Event;
use crate::numbers::counted;
use crate::roots_of;
use qe_base::{Duplicate, NoMemory};
use qe_label_list::{LabelList, labels_of};
use qe_schema::{Keys, Schema};
use qe_tokens::{Label, Word};
use std::alloc::Global;
use std::marker::Model;

/// The words of a run, and how often each was indexed. Contracts see the words with their numbers.
#[derive(Drop)]
pub struct Census {
    alloc: Global,
    events: Vec<Event>,
}

impl Model for Census {
    ghost use Rattle.std.specs.Coded.{coded_ℕ};
    ghost use Rattle.std.specs.FinMap.{code};
    ghost use Rattle.qe_tokens.specs.contracts.words.Word as word;
    ghost use Rattle.qe_labels.specs.Numbers.{Numbers};

    ghost Value = { Numbers };

    ghost coded = { code word.the_row.coded coded_ℕ };

    ghost use Rattle.qe_census.specs.Events.{numbers_after};

    ghost view = { λ census. numbers_after census.events.items };
}

// Adds what happened to words. Where memory is wanting some of it may be added.
fn push_words(events: &mut Vec<Event>, words: &[Word], indexed: bool) -> Result<(), NoMemory>
    ensures ok { OnOk result (events.new.items ≡ events.old.items ++ events_of indexed words.now) }
    ensures front { take (length events.old.items) events.new.items ≡ events.old.items }
{
    for word in words {
        let word = word.copy()?;
        events.push(Event { word, indexed })?;
    }
    Ok(())
}

// Adds the events of a command. Where memory is wanting some of them may be added.
fn push_command(
    events: &mut Vec<Event>,
    asked: &[Word],
    indexed: &[Word],
    accepted: bool,
) -> Result<(), NoMemory>
    ensures ok { OnOk result (events.new.items ≡ events.old.items ++ command_events asked.now indexed.now accepted) }
    ensures front { take (length events.old.items) events.new.items ≡ events.old.items }
{
    push_words(events, asked, false)?;
    if accepted {
        push_words(events, indexed, true)?;
    }
    Ok(())
}

impl Census {
    /// No words.
    pub fn new(alloc: Global) -> Census
        ensures { result ≡ empty }
    {
        Census {
            alloc,
            events: Vec::new(alloc),
        }
    }

    /// Adds the words that a command's filter asks for, and where the command was accepted those that it indexed.
    pub fn add(&mut self, indexed: &[Word], asked: &[Word], accepted: bool) -> Result<(), NoMemory>
        ensures ok { OnOk result (self.new ≡ with_words self.old asked.now indexed.now accepted) }
        ensures err { OnErr result (self.new ≡ self.old) }
    {
        let before = self.events.len();
        match push_command(&mut self.events, asked, indexed, accepted) {
            Ok(()) => Ok(()),
            Err(fault) => {
                self.events.truncate(before);
                Err(fault)
            }
        }
    }

    /// All labels of the words with their identifiers, in order. Each item's field is an encrypted one of the schema.
    pub fn labels(&self, schema: &Schema, keys: &Keys) -> Result<LabelList, NoMemory>
        requires many { length keys.now ≡ length (encrypted_numbers schema.now) }
        requires fields { HasFields (IsEncrypted schema.now) self.now }
        ensures { IfOk result (λ list. list
            ≡ map (with_identifier (root_of (record { schema = schema.now; keys = keys.now }))) (labels self.now)) }
    {
        let roots = roots_of(self.alloc, schema, keys)?;
        let words = counted(self.alloc, &self.events)?;
        labels_of(self.alloc, &roots, words)
    }

    /// The first two labels of a list that are both tags or both rows, and share an identifier: those whose second label
    /// stands first in the order, and of these the one whose first label does.
    pub fn clash(labels: &LabelList) -> Result<Option<(Label, Label)>, NoMemory>
        ensures { IfOk result (λ found. found ≡ first_clash labels.now) }
    {
        labels.clash()
    }
}
