//! The elements of command documents.

ghost use Rattle.std.specs.Prelude.{◌≡◌, ◌≤◌, length, unsigned_abs};
ghost use Rattle.qe_document.specs.Names.{Distinct};
ghost use Rattle.qe_document.specs.Views.{plain};
ghost use Rattle.qe_layout.specs.Documents.{document_reads, of_type};
ghost use Rattle.qe_layout.specs.Leaves.{natural_reads};
ghost use Rattle.qe_layout.specs.Refusal.{Reads, map_read};
ghost use Rattle.qe_command_document.specs.CellDocuments.{doc_rows, field_rows, doc_of, set_of, tokens_of};
ghost use Rattle.qe_command_document.specs.CommandDocument as command;
ghost use Rattle.qe_command_document.specs.declared.part.Part.TheVariants.{Number};

use crate::documents::{doc, set};
use crate::part::{Doc, Part};
use qe_base::JobKind;
use qe_command::SentCells;
use qe_command_parts::{encrypted, filter, tokens};
use qe_document::Value;
use qe_field::{Field, text_in};
use qe_layout::{Kind, Malformed, document, inside, int32, natural, refuse};
use qe_tokens::TokenList;
use std::alloc::Global;

fn doc_under(alloc: Global, fields: &[Field], name: &str, value: Value) -> Result<Doc, Malformed>
    requires few { length fields.now ≤ 64 }
    requires apart { Distinct (doc_rows fields.now) }
    ensures { Reads result (document_reads (doc_of fields.now) name.now (plain value)) }
{
    let inner = document(alloc, name, value)?;
    inside(alloc, name, doc(alloc, fields, inner))
}

fn set_under(
    alloc: Global,
    fields: &[Field],
    name: &str,
    value: Value,
) -> Result<SentCells, Malformed>
    requires few { length fields.now ≤ 64 }
    requires apart { Distinct (field_rows fields.now) }
    ensures { Reads result (document_reads (set_of fields.now) name.now (plain value)) }
{
    let inner = document(alloc, name, value)?;
    inside(alloc, name, set(alloc, fields, inner))
}

fn tokens_under(
    alloc: Global,
    fields: &[Field],
    name: &str,
    value: Value,
) -> Result<TokenList, Malformed>
    requires few { length fields.now ≤ 64 }
    requires apart { Distinct (field_rows fields.now) }
    ensures { Reads result (document_reads (tokens_of fields.now) name.now (plain value)) }
{
    let inner = document(alloc, name, value)?;
    inside(alloc, name, tokens(alloc, fields, inner))
}

fn flag(alloc: Global, name: &str, value: Value) -> Result<bool, Malformed>
    ensures { Reads result (of_type name.now (command.flag_in (plain value))) }
{
    match value {
        Value::Bool(flag) => Ok(flag),
        _ => refuse(alloc, name, Kind::WrongType),
    }
}

fn kind_named(text: &str) -> Option<JobKind>
    ensures { result ≡ command.kind_named text.now }
{
    match text {
        "compact" => Some(JobKind::Compact),
        "cleanup" => Some(JobKind::Cleanup),
        _ => None,
    }
}

fn kind(alloc: Global, name: &str, value: Value) -> Result<JobKind, Malformed>
    ensures { Reads result (command.kind_reads name.now (plain value)) }
{
    match text_in(&value) {
        Some(text) => match kind_named(text) {
            Some(kind) => Ok(kind),
            None => refuse(alloc, name, Kind::WrongType),
        },
        None => refuse(alloc, name, Kind::WrongType),
    }
}

fn limit(alloc: Global, name: &str, value: Value) -> Result<u32, Malformed>
    ensures { Reads result (command.limit_reads name.now (plain value)) }
{
    let limit = int32(alloc, name, value)?;
    if 1 <= limit && limit <= 65_536 {
        Ok(limit.unsigned_abs())
    } else {
        refuse(alloc, name, Kind::BadLimit(limit))
    }
}

fn path(alloc: Global, fields: &[Field], name: &str, value: Value) -> Result<u32, Malformed>
    requires { length fields.now ≤ 64 }
    ensures { Reads result (command.path_reads fields.now name.now (plain value)) }
{
    match text_in(&value) {
        Some(text) => {
            let (number, _) = encrypted(alloc, fields, name, text)?;
            Ok(number)
        }
        None => refuse(alloc, name, Kind::WrongType),
    }
}

fn number(alloc: Global, name: &str, value: Value) -> Result<Part, Malformed>
    ensures { Reads result (map_read (λ number. Number (unsigned_abs number)) (natural_reads name.now (plain value))) }
{
    let number = natural(alloc, name, value)?;
    Ok(Part::Number(number.unsigned_abs()))
}

// An element that is no document and no array.
#[tactic(auto, unfolding(crate::specs::CommandDocument::plain_reads))]
fn plain_element(
    alloc: Global,
    fields: &[Field],
    name: &str,
    value: Value,
) -> Result<Part, Malformed>
    requires { length fields.now ≤ 64 }
    ensures { Reads result (command.plain_reads fields.now name.now (plain value)) }
{
    match name {
        "ids" => Ok(Part::Ids(flag(alloc, name, value)?)),
        "kind" => Ok(Part::Kind(kind(alloc, name, value)?)),
        "limit" => Ok(Part::Limit(limit(alloc, name, value)?)),
        "field" => Ok(Part::Field(path(alloc, fields, name, value)?)),
        _ => number(alloc, name, value),
    }
}

/// An element of a command, by its name.
#[tactic(auto, unfolding(crate::specs::CommandDocument::element_reads))]
pub(crate) fn element(
    alloc: Global,
    fields: &[Field],
    name: &str,
    value: Value,
) -> Result<Part, Malformed>
    requires few { length fields.now ≤ 64 }
    requires apart { Distinct (doc_rows fields.now) }
    ensures { Reads result (command.element_reads fields.now name.now (plain value)) }
{
    match name {
        "doc" => Ok(Part::Doc(doc_under(alloc, fields, name, value)?)),
        "set" => Ok(Part::Set(set_under(alloc, fields, name, value)?)),
        "filter" => Ok(Part::Filter(filter(alloc, fields, name, value)?)),
        "tokens" => Ok(Part::Tokens(tokens_under(alloc, fields, name, value)?)),
        _ => plain_element(alloc, fields, name, value),
    }
}
