//! Commands from bytes.

ghost use Rattle.std.specs.Prelude.{◌≡◌, ◌≤◌, length, Some, IfOk};
ghost use Rattle.qe_document.specs.Names.{Distinct, is_named};
ghost use Rattle.qe_document.specs.Views.{plain};
ghost use Rattle.qe_layout.specs.Refusal.{Reads};
ghost use Rattle.qe_command_document.specs.CellDocuments.{doc_rows};
ghost use Rattle.qe_command_document.specs.CommandDocument as command;

use crate::elements::element;
use crate::part::{Doc, Op, Part};
use qe_base::JobKind;
use qe_command::{Command, SentCells, SentFilter};
use qe_document::{Document, Value};
use qe_field::{Field, greatest_of, text_in};
use qe_layout::{Kind, Layout, Malformed, Slots, arrange, only_document, refuse};
use qe_schema::Schema;
use qe_tokens::TokenList;
use std::alloc::Global;

/// The name of the element that says which command it is.
const OP: &str = "op";

#[tactic(auto, unfolding(crate::specs::CommandDocument::op_named))]
fn op_named(name: &str) -> Option<Op>
    ensures { result ≡ command.op_named name.now }
{
    match name {
        "insert" => Some(Op::Insert),
        "find" => Some(Op::Find),
        "update" => Some(Op::Update),
        "delete" => Some(Op::Delete),
        "begin" => Some(Op::Begin),
        "step" => Some(Op::Step),
        "end" => Some(Op::End),
        "abandon" => Some(Op::Abandon),
        "raise" => Some(Op::Raise),
        _ => None,
    }
}

// Which command a value names.
fn op_in(alloc: Global, value: &Value) -> Result<Op, Malformed>
    ensures { Reads result (command.op_in (Some (plain value.now))) }
{
    match text_in(value) {
        Some(name) => match op_named(name) {
            Some(which) => Ok(which),
            None => refuse(alloc, OP, Kind::UnknownOp),
        },
        None => refuse(alloc, OP, Kind::WrongType),
    }
}

fn op_of(alloc: Global, document: &Document) -> Result<Op, Malformed>
    ensures { Reads result (command.op_of document.now) }
{
    match document.get(OP) {
        Some(value) => op_in(alloc, value),
        None => refuse(alloc, OP, Kind::Missing),
    }
}

// Whether a command has an element of a name, besides `op`.
fn has_element(which: Op, name: &str) -> bool
    ensures { result ≡ is_named name.now (command.element_rows which) }
{
    match which {
        Op::Insert => name == "doc",
        Op::Find => name == "filter" || name == "ids",
        Op::Update => name == "filter" || name == "set",
        Op::Delete => name == "filter",
        Op::Begin => name == "kind" || name == "tokens",
        Op::Step => name == "job" || name == "limit",
        Op::End | Op::Abandon => name == "job",
        Op::Raise => name == "field" || name == "contention",
    }
}

// The layout of a command's document under a schema.
#[derive(Clone, Copy)]
struct CommandLayout<'a> {
    which: Op,
    fields: &'a [Field],
}

impl<'a> Layout for CommandLayout<'a> {
    ghost use Rattle.std.specs.Prelude.{◌≤◌, length};
    ghost use Rattle.qe_document.specs.Names.{Distinct};
    ghost use Rattle.qe_command_document.specs.CellDocuments.{doc_rows};
    ghost use Rattle.qe_command_document.specs.CommandDocument.{command_reads, command_rows};

    type Part = Part;

    ghost reads = { λ it. command_reads it.which it.fields.now };

    ghost rows = { λ it. command_rows it.which };

    ghost fits = { λ it. (length it.fields.now ≤ 64) × Distinct (doc_rows it.fields.now) };

    #[tactic(auto, unfolding(crate::specs::CommandDocument::command_reads))]
    fn read(&self, alloc: Global, name: &str, value: Value) -> Result<Part, Malformed> {
        if name == OP {
            Ok(Part::Op)
        } else if has_element(self.which, name) {
            element(alloc, self.fields, name, value)
        } else {
            refuse(alloc, name, Kind::Unknown)
        }
    }

    fn count(&self) -> usize {
        match self.which {
            Op::Insert | Op::Delete | Op::End | Op::Abandon => 2,
            _ => 3,
        }
    }

    fn row(&self, place: usize) -> (&str, Option<Kind>) {
        match (self.which, place) {
            (_, 0) => (OP, None),
            (Op::Insert, _) => ("doc", Some(Kind::Missing)),
            (Op::Find, 1) => ("filter", Some(Kind::Missing)),
            (Op::Find, _) => ("ids", Some(Kind::Missing)),
            (Op::Update, 1) => ("filter", Some(Kind::Missing)),
            (Op::Update, _) => ("set", Some(Kind::Missing)),
            (Op::Delete, _) => ("filter", Some(Kind::Missing)),
            (Op::Begin, 1) => ("kind", Some(Kind::Missing)),
            (Op::Begin, _) => ("tokens", Some(Kind::Missing)),
            (Op::Step, 1) => ("job", Some(Kind::Missing)),
            (Op::Step, _) => ("limit", Some(Kind::Missing)),
            (Op::End, _) => ("job", Some(Kind::Missing)),
            (Op::Abandon, _) => ("job", Some(Kind::Missing)),
            (Op::Raise, 1) => ("field", Some(Kind::Missing)),
            (Op::Raise, _) => ("contention", Some(Kind::Missing)),
        }
    }
}

fn doc_in(alloc: Global, slot: Option<Part>) -> Doc
    ensures { result ≡ command.doc_in slot }
{
    match slot {
        Some(Part::Doc(doc)) => doc,
        _ => Doc {
            id: Value::Null,
            cells: SentCells::new(alloc),
        },
    }
}

fn set_in(alloc: Global, slot: Option<Part>) -> SentCells
    ensures { result ≡ command.set_in slot }
{
    match slot {
        Some(Part::Set(set)) => set,
        _ => SentCells::new(alloc),
    }
}

fn filter_in(alloc: Global, slot: Option<Part>) -> SentFilter
    ensures { result ≡ command.filter_in slot }
{
    match slot {
        Some(Part::Filter(terms)) => terms,
        _ => SentFilter::new(alloc),
    }
}

fn ids_in(slot: Option<Part>) -> bool
    ensures { result ≡ command.ids_in slot }
{
    match slot {
        Some(Part::Ids(ids)) => ids,
        _ => false,
    }
}

fn kind_in(slot: Option<Part>) -> JobKind
    ensures { result ≡ command.kind_in slot }
{
    match slot {
        Some(Part::Kind(kind)) => kind,
        _ => JobKind::Compact,
    }
}

fn tokens_in(alloc: Global, slot: Option<Part>) -> TokenList
    ensures { result ≡ command.tokens_in slot }
{
    match slot {
        Some(Part::Tokens(tokens)) => tokens,
        _ => TokenList::new(alloc),
    }
}

fn number_in(slot: Option<Part>) -> u64
    ensures { result ≡ command.number_in slot }
{
    match slot {
        Some(Part::Number(number)) => number,
        _ => 0,
    }
}

fn limit_in(slot: Option<Part>) -> u32
    ensures { result ≡ command.limit_in slot }
{
    match slot {
        Some(Part::Limit(limit)) => limit,
        _ => 0,
    }
}

fn field_in(slot: Option<Part>) -> u32
    ensures { result ≡ command.field_in slot }
{
    match slot {
        Some(Part::Field(field)) => field,
        _ => 0,
    }
}

// The command of its slots.
fn build(alloc: Global, which: Op, mut slots: Slots<Part>) -> Command
    ensures { result ≡ command.command_build which slots }
{
    let first = slots.take(1);
    let second = slots.take(2);
    match which {
        Op::Insert => {
            let doc = doc_in(alloc, first);
            Command::Insert {
                id: doc.id,
                cells: doc.cells,
            }
        }
        Op::Find => Command::Find {
            filter: filter_in(alloc, first),
            ids: ids_in(second),
        },
        Op::Update => Command::Update {
            filter: filter_in(alloc, first),
            set: set_in(alloc, second),
        },
        Op::Delete => Command::Delete {
            filter: filter_in(alloc, first),
        },
        Op::Begin => Command::Begin {
            kind: kind_in(first),
            tokens: tokens_in(alloc, second),
        },
        Op::Step => Command::Step {
            job: number_in(first),
            limit: limit_in(second),
        },
        Op::End => Command::End {
            job: number_in(first),
        },
        Op::Abandon => Command::Abandon {
            job: number_in(first),
        },
        Op::Raise => Command::Raise {
            field: field_in(first),
            contention: number_in(second),
        },
    }
}

// The greatest contention of a field.
fn greatest_at(fields: &[Field], field: u32) -> u64
    ensures { result ≡ command.greatest_at fields.now field }
{
    match fields.get(field as usize) {
        Some(found) => greatest_of(&found.kind),
        None => 0,
    }
}

// A raise isn't above its field's greatest contention.
fn within(alloc: Global, fields: &[Field], given: Command) -> Result<Command, Malformed>
    ensures { Reads result (command.within fields.now given) }
{
    match given {
        Command::Raise { field, contention } => {
            let greatest = greatest_at(fields, field);
            if greatest < contention {
                return refuse(
                    alloc,
                    "contention",
                    Kind::ContentionAbove {
                        got: contention,
                        limit: greatest,
                    },
                );
            }
            Ok(Command::Raise { field, contention })
        }
        other => Ok(other),
    }
}

fn elements(
    alloc: Global,
    fields: &[Field],
    document: Document,
    which: Op,
) -> Result<Command, Malformed>
    requires few { length fields.now ≤ 64 }
    requires apart { Distinct (doc_rows fields.now) }
    ensures { Reads result (command.elements_of fields.now document which) }
{
    let slots = arrange(alloc, &CommandLayout { which, fields }, document)?;
    Ok(build(alloc, which, slots))
}

#[tactic(auto, unfolding(crate::specs::CommandDocument::command_of))]
fn read_document(alloc: Global, fields: &[Field], document: Document) -> Result<Command, Malformed>
    requires few { length fields.now ≤ 64 }
    requires apart { Distinct (doc_rows fields.now) }
    ensures { Reads result (command.command_of fields.now document) }
{
    let which = op_of(alloc, &document)?;
    let given = elements(alloc, fields, document, which)?;
    within(alloc, fields, given)
}

/// The command that bytes are the document of, under a schema, or the first refusal and its path.
///
/// The bytes are one BSON document. `op` says which command it is and may stand at any place; the other elements may
/// stand in any order.
#[tactic(auto, unfolding(crate::specs::CommandDocument::command_at))]
pub fn read_command(alloc: Global, schema: &Schema, bytes: &[u8]) -> Result<Command, Malformed>
    ensures found { IfOk result (λ given. command.IsCommandDocument schema.now given bytes.now) }
    ensures exact { Reads result (command.command_at schema.now bytes.now) }
{
    let document = only_document(alloc, bytes)?;
    read_document(alloc, schema.fields(), document)
}
