//! The engine itself: a schema, a journal, and what the journal says that is kept.

ghost use Rattle.std.specs.Prelude.{◌≡◌, ◌<◌, [], ◌∷◌, ◌++◌, length, IfOk, OnErr, map, vec_len, vec_capacity, slice_get, false};
ghost use Rattle.std.specs.FinMap.{len};
ghost use Rattle.qe_command.specs.Nonces.{nonces_of};
ghost use Rattle.qe_command_document.specs.CommandDocument.{Fits};
ghost use Rattle.qe_protocol.specs.Contention.{current_of};
ghost use Rattle.qe_protocol.specs.Journal.{first_contention, IsLegal};
ghost use Rattle.qe_dump.specs.Dump.{dump_of};
ghost use Rattle.qe_engine.specs.Engines.{EntryAdded, has_contention, state_now};

use crate::dump::text_of;
use qe_base::{Bytes, NoMemory, Nonces};
use qe_field::{Field, FieldKind};
use qe_protocol::{Command, JournalEntry, Reply};
use qe_refusal::{current_of, outcome_of};
use qe_schema::Schema;
use qe_serving::{Collections, Made};
use std::alloc::Global;
use std::marker::Model;

/// No journal has as many entries: it would not fit into any memory.
const MOST_ENTRIES: usize = (1 << 63) - 1;

/// What the server keeps. Contracts see the schema and the journal; the state is the one that these give.
#[derive(Drop)]
pub struct Engine {
    alloc: Global,
    schema: Schema,
    collections: Collections,
    journal: Vec<JournalEntry>,
}

impl Model for Engine {
    ghost use Rattle.qe_dump.specs.Dump.{dump_of};
    ghost use Rattle.qe_engine.specs.Engines.{Engined, StandsByJournal};
    ghost use Rattle.qe_protocol.specs.contracts.journal.JournalEntry as entry;
    ghost use Rattle.qe_field.specs.contracts.field.Field as field;
    ghost use Rattle.std.specs.Coded.{codes};

    ghost Value = { Engined };

    ghost coded = { Prim.hlevel (codes, entry.the_row.coded, field.the_row.coded) };

    ghost view = { λ e. record { schema = e.schema; journal = e.journal.items } };

    ghost invariant = { λ e. StandsByJournal e.schema e.collections e.journal.items };
}

impl Engine {
    /// An engine without documents, rows and entries.
    pub fn new(alloc: Global, schema: Schema) -> Result<Engine, NoMemory>
        ensures { IfOk result (λ engine. engine ≡ record { schema = schema; journal = [] }) }
    {
        let current = first_contentions(alloc, schema.fields())?;
        Ok(Engine {
            alloc,
            schema,
            collections: Collections::new(alloc, current),
            journal: Vec::new(alloc),
        })
    }

    /// Lets a command of a caller take effect, and adds its entry to the journal. The nonces are as many as
    /// `nonces_needed` says.
    pub fn apply(
        &mut self,
        caller: u32,
        command: Command,
        nonces: &[[u8; 16]],
    ) -> Result<Reply, NoMemory>
        requires fits { Fits self.old.schema command }
        requires nonces { length nonces.now ≡ nonces_of command }
        ensures ok { IfOk result (EntryAdded self.old self.new caller command nonces.now) }
        ensures err { OnErr result (self.new ≡ self.old) }
    {
        if self.journal.len() >= MOST_ENTRIES {
            return Err(NoMemory);
        }
        let _fields = self.schema.fields();
        let kept = Nonces::from_slice(self.alloc, nonces)?;
        self.journal.reserve(1)?;
        let Made {
            reply,
            counts,
            opened,
        } = self.collections.run(&command, nonces)?;
        let entry = JournalEntry {
            caller,
            command,
            nonces: kept,
            counts,
            opened,
            outcome: outcome_of(&reply),
        };
        push_within(&mut self.journal, entry);
        Ok(reply)
    }

    /// The schema.
    pub fn schema(&self) -> &Schema
        ensures { result.now ≡ self.now.schema }
    {
        &self.schema
    }

    /// All entries, in the order in which they took effect. Each was allowed where it stands.
    pub fn journal(&self) -> &[JournalEntry]
        ensures entries { result.now ≡ self.now.journal }
        ensures legal { IsLegal self.now.schema self.now.journal }
    {
        self.journal.as_slice()
    }

    /// A field's current contention, by the field's number; 0 for a plain field, and where the schema has no such field. It
    /// takes no memory.
    pub fn current(&self, field: u32) -> u64
        ensures value { result ≡ current_of (state_now self.now).current field }
        ensures plain { has_contention (slice_get self.now.schema field) ≡ false → result ≡ 0 }
    {
        let _fields = self.schema.fields();
        current_of(self.collections.current.as_slice(), field)
    }

    /// How many rows there are.
    pub fn esc_rows(&self) -> u64
        ensures { result ≡ len (state_now self.now).index.rows }
    {
        self.collections.esc.len()
    }

    /// How many rows the next compaction or cleanup will read.
    pub fn ecoc_rows(&self) -> u64
        ensures { result ≡ length (state_now self.now).index.ecoc }
    {
        self.collections.ecoc.len()
    }

    /// A text with a line for each thing that is kept: rows by rising identifier, rows for compaction and those aside,
    /// captured and doomed identifiers, the job and the last one's number, contentions that were raised, and documents.
    pub fn dump(&self) -> Result<Bytes, NoMemory>
        ensures { IfOk result (λ text. text ≡ dump_of self.now.schema (state_now self.now)) }
    {
        text_of(&self.collections, self.schema.fields())
    }
}

// Adds an entry, for which there is room. It takes no memory.
fn push_within(journal: &mut Vec<JournalEntry>, entry: JournalEntry)
    requires { vec_len journal.old < vec_capacity journal.old }
    ensures { journal.new.items ≡ journal.old.items ++ entry ∷ [] }
{
    match journal.push(entry) {
        Ok(()) => {}
        Err(_) => {}
    }
}

// A field's contention at first; a plain field has none.
fn first_contention(kind: &FieldKind) -> u64
    ensures { result ≡ first_contention kind.now }
{
    match kind {
        FieldKind::Plain => 0,
        FieldKind::Equality { contention, .. } => *contention,
        FieldKind::Range { contention, .. } => *contention,
    }
}

// Each field's.
fn first_contentions(alloc: Global, fields: &[Field]) -> Result<Vec<u64>, NoMemory>
    ensures { IfOk result (λ all. all.items ≡ map (λ field. first_contention field.kind) fields.now) }
{
    let mut all = Vec::with_capacity(alloc, fields.len())?;
    for field in fields {
        all.push(first_contention(&field.kind))?;
    }
    Ok(all)
}
