//! Commands as bytes.

ghost use Rattle.std.specs.Prelude.{◌≡◌, ◌<◌, ◌^◌, ◌∷◌, [], bytes_eq, codes, false, pos, Ok, IfOk};
ghost use Rattle.std.specs.List.{AllByRecursion};
ghost use Rattle.std.specs.Option.{option_or};
ghost use Rattle.qe_base.specs.Answers.{Answers};
ghost use Rattle.qe_document.specs.Faults.{encode_refusal};
ghost use Rattle.qe_document.specs.Names.{Distinct};
ghost use Rattle.qe_document.specs.Spelling.{document_bytes};
ghost use Rattle.qe_document.specs.Views.{plain};
ghost use Rattle.qe_field.specs.Judgements.{unless};
ghost use Rattle.qe_field.specs.Lookup.{path_of};
ghost use Rattle.qe_value.specs.declared.value.Plain.TheVariants as p;
ghost use Rattle.qe_command_document.specs.CommandDocument.{Fits, IsCommandDocument};
ghost use Rattle.qe_command_written.specs.Faults.{cells_fault, terms_fault, payloads_fault};
ghost use Rattle.qe_command_written.specs.Parts.{FitsCell, FitsTerm, CellAgain, TermAgain, FitsParts, PartsAgain};
ghost use Rattle.qe_command_written.specs.Written as written;

use crate::cells::{doc, path_at, put_cells};
use crate::elements::add;
use crate::terms::filter_values;
use crate::tokens::token_document;
use qe_base::{Bytes, JobKind, Text};
use qe_command::{Command, SentCell, SentTerm};
use qe_document::{Document, EncodeFault, Value, encode};
use qe_field::Field;
use qe_schema::Schema;
use qe_tokens::FieldToken;
use std::alloc::Global;

// A string.
fn text(alloc: Global, text: &str) -> Result<Value, EncodeFault>
    ensures { Answers plain encode_refusal result (Ok (p.Str text.now)) }
{
    let Ok(text) = Text::of(alloc, text) else {
        return Err(EncodeFault::NoMemory);
    };
    Ok(Value::Str(text))
}

// The document of a command's name.
fn named(alloc: Global, name: &str) -> Result<Document, EncodeFault>
    ensures { Answers (λ it. it) encode_refusal result (Ok (written.with_op name.now [])) }
{
    let value = text(alloc, name)?;
    add(alloc, Document::new(alloc), "op", value)
}

// The document of a command that has a filter as its first element.
fn filtered(
    alloc: Global,
    name: &str,
    fields: &[Field],
    filter: &[SentTerm],
) -> Result<Document, EncodeFault>
    requires { AllByRecursion FitsTerm filter.now }
    ensures exact { Answers (λ it. it) encode_refusal result (unless (terms_fault filter.now) (Ok (written.with_op name.now ((codes "filter", written.filter_value fields.now filter.now) ∷ [])))) }
    ensures again { IfOk result (λ _. AllByRecursion TermAgain filter.now) }
{
    let items = filter_values(alloc, fields, filter)?;
    let document = named(alloc, name)?;
    add(alloc, document, "filter", Value::Array(items))
}

fn insert(
    alloc: Global,
    fields: &[Field],
    id: &Value,
    cells: &[(u32, SentCell)],
) -> Result<Document, EncodeFault>
    requires fits { AllByRecursion (λ cell. FitsCell cell.1) cells.now }
    requires apart { Distinct (written.doc_elements fields.now id.now cells.now) }
    ensures exact { Answers (λ it. it) encode_refusal result (unless (cells_fault cells.now) (Ok (written.with_op (codes "insert") ((codes "doc", p.Doc (written.doc_elements fields.now id.now cells.now)) ∷ [])))) }
    ensures again { IfOk result (λ _. AllByRecursion (λ cell. CellAgain cell.1) cells.now) }
{
    let inner = doc(alloc, fields, id, cells)?;
    let document = named(alloc, "insert")?;
    add(alloc, document, "doc", Value::Doc(inner))
}

fn begin(
    alloc: Global,
    fields: &[Field],
    kind: JobKind,
    tokens: &[FieldToken],
) -> Result<Document, EncodeFault>
    requires { Distinct (written.token_elements fields.now tokens.now) }
    ensures { Answers (λ it. it) encode_refusal result (Ok (written.with_op (codes "begin") ((codes "kind", p.Str (written.kind_name kind)) ∷ (codes "tokens", p.Doc (written.token_elements fields.now tokens.now)) ∷ []))) }
{
    let inner = token_document(alloc, fields, tokens)?;
    let kind = match kind {
        JobKind::Compact => text(alloc, "compact")?,
        JobKind::Cleanup => text(alloc, "cleanup")?,
    };
    let document = named(alloc, "begin")?;
    let document = add(alloc, document, "kind", kind)?;
    add(alloc, document, "tokens", Value::Doc(inner))
}

fn find(
    alloc: Global,
    fields: &[Field],
    filter: &[SentTerm],
    ids: bool,
) -> Result<Document, EncodeFault>
    requires { AllByRecursion FitsTerm filter.now }
    ensures exact { Answers (λ it. it) encode_refusal result (unless (terms_fault filter.now) (Ok (written.with_op (codes "find") ((codes "filter", written.filter_value fields.now filter.now) ∷ (codes "ids", p.Bool ids) ∷ [])))) }
    ensures again { IfOk result (λ _. AllByRecursion TermAgain filter.now) }
{
    let document = filtered(alloc, "find", fields, filter)?;
    add(alloc, document, "ids", Value::Bool(ids))
}

fn update(
    alloc: Global,
    fields: &[Field],
    filter: &[SentTerm],
    set: &[(u32, SentCell)],
) -> Result<Document, EncodeFault>
    requires terms { AllByRecursion FitsTerm filter.now }
    requires cells { AllByRecursion (λ cell. FitsCell cell.1) set.now }
    requires apart { Distinct (written.cell_elements fields.now set.now) }
    ensures exact { Answers (λ it. it) encode_refusal result (unless (option_or (terms_fault filter.now) (cells_fault set.now)) (Ok (written.with_op (codes "update") ((codes "filter", written.filter_value fields.now filter.now) ∷ (codes "set", p.Doc (written.cell_elements fields.now set.now)) ∷ [])))) }
    ensures terms { IfOk result (λ _. AllByRecursion TermAgain filter.now) }
    ensures cells { IfOk result (λ _. AllByRecursion (λ cell. CellAgain cell.1) set.now) }
{
    let document = filtered(alloc, "update", fields, filter)?;
    let inner = put_cells(alloc, Document::new(alloc), fields, set)?;
    add(alloc, document, "set", Value::Doc(inner))
}

// The document of a command with a number.
fn numbered(alloc: Global, command: &str, name: &str, number: u64) -> Result<Document, EncodeFault>
    requires small { number < 2 ^ 63 }
    requires new { bytes_eq name.now (codes "op") ≡ false }
    ensures { Answers (λ it. it) encode_refusal result (Ok (written.with_op command.now ((name.now, p.Int64 (pos number)) ∷ []))) }
{
    let document = named(alloc, command)?;
    add(alloc, document, name, Value::Int64(number as i64))
}

fn step(alloc: Global, job: u64, limit: u32) -> Result<Document, EncodeFault>
    requires job { job < 2 ^ 63 }
    requires limit { limit < 2 ^ 31 }
    ensures { Answers (λ it. it) encode_refusal result (Ok (written.with_op (codes "step") ((codes "job", p.Int64 (pos job)) ∷ (codes "limit", p.Int32 (pos limit)) ∷ []))) }
{
    let document = numbered(alloc, "step", "job", job)?;
    add(alloc, document, "limit", Value::Int32(limit as i32))
}

fn raise(
    alloc: Global,
    fields: &[Field],
    field: u32,
    contention: u64,
) -> Result<Document, EncodeFault>
    requires { contention < 2 ^ 63 }
    ensures { Answers (λ it. it) encode_refusal result (Ok (written.with_op (codes "raise") ((codes "field", p.Str (path_of fields.now field)) ∷ (codes "contention", p.Int64 (pos contention)) ∷ []))) }
{
    let path = text(alloc, path_at(fields, field))?;
    let document = named(alloc, "raise")?;
    let document = add(alloc, document, "field", path)?;
    add(
        alloc,
        document,
        "contention",
        Value::Int64(contention as i64),
    )
}

#[tactic(auto, unfolding(crate::specs::Written::command_elements, crate::specs::Faults::payloads_fault))]
fn document_of(alloc: Global, fields: &[Field], command: &Command) -> Result<Document, EncodeFault>
    requires { FitsParts fields.now command.now }
    ensures exact { Answers (λ it. it) encode_refusal result (unless (payloads_fault command.now) (Ok (written.command_elements fields.now command.now))) }
    ensures again { IfOk result (λ _. PartsAgain command.now) }
{
    match command {
        Command::Insert { id, cells } => insert(alloc, fields, id, cells.slice()),
        Command::Find { filter, ids } => find(alloc, fields, filter.slice(), *ids),
        Command::Update { filter, set } => update(alloc, fields, filter.slice(), set.slice()),
        Command::Delete { filter } => filtered(alloc, "delete", fields, filter.slice()),
        Command::Begin { kind, tokens } => begin(alloc, fields, *kind, tokens.slice()),
        Command::Step { job, limit } => step(alloc, *job, *limit),
        Command::End { job } => numbered(alloc, "end", "job", *job),
        Command::Abandon { job } => numbered(alloc, "abandon", "job", *job),
        Command::Raise { field, contention } => raise(alloc, fields, *field, *contention),
    }
}

/// The command document of a command that fits the schema, in written order: `op`, the other elements in the tables'
/// order, the id of a document before its fields, fields in schema order, and the terms of a filter in theirs.
/// `read_command` gives the command again. No command that fits is refused: only memory may be wanting.
pub fn write_command(
    alloc: Global,
    schema: &Schema,
    command: &Command,
) -> Result<Bytes, EncodeFault>
    requires { Fits schema.now command.now }
    ensures exact { Answers (λ bytes. bytes) encode_refusal result (Ok (document_bytes (written.command_elements schema.now command.now))) }
    ensures again { IfOk result (λ bytes. IsCommandDocument schema.now command.now bytes) }
{
    let document = document_of(alloc, schema.fields(), command)?;
    encode(alloc, &document)
}
