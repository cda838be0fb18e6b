//! Filters: arrays of documents of one element each.

ghost use Rattle.std.specs.Prelude.{◌≡◌, ◌≤◌, length};
ghost use Rattle.qe_document.specs.Views.{plain};
ghost use Rattle.qe_field.specs.Lookup.{known};
ghost use Rattle.qe_layout.specs.Refusal.{Reads};
ghost use Rattle.qe_command_parts.specs.FilterArrays as filters;

use crate::fields::id;
use crate::payloads::{equal_under, range_under};
use qe_command::{SentFilter, SentTerm};
use qe_document::{Document, Value};
use qe_field::{Field, FieldKind, is_reserved, known};
use qe_layout::{Item, Kind, Malformed, document, inside, items, refuse};
use std::alloc::Global;

// A term of a field.
fn found(alloc: Global, fields: &[Field], name: &str, value: Value) -> Result<SentTerm, Malformed>
    requires { length fields.now ≤ 64 }
    ensures { Reads result (filters.found_reads (known fields.now name.now) name.now (plain value)) }
{
    match known(fields, name) {
        Some((field, FieldKind::Equality { greatest, .. })) => {
            let payload = equal_under(alloc, name, value, greatest)?;
            Ok(SentTerm::Equal { field, payload })
        }
        Some((field, FieldKind::Range { greatest, .. })) => {
            let payload = range_under(alloc, name, value, greatest)?;
            Ok(SentTerm::Range { field, payload })
        }
        _ => refuse(alloc, name, Kind::NotInSchema),
    }
}

#[tactic(auto, unfolding(crate::specs::FilterArrays::term_reads))]
fn term(alloc: Global, fields: &[Field], name: &str, value: Value) -> Result<SentTerm, Malformed>
    requires { length fields.now ≤ 64 }
    ensures { Reads result (filters.term_reads fields.now name.now (plain value)) }
{
    if is_reserved(name) {
        refuse(alloc, name, Kind::ReservedName)
    } else if name == "_id" {
        Ok(SentTerm::Id(id(alloc, name, value)?))
    } else {
        found(alloc, fields, name, value)
    }
}

// A document of exactly one element.
fn one(
    alloc: Global,
    fields: &[Field],
    index: &str,
    document: Document,
) -> Result<SentTerm, Malformed>
    requires { length fields.now ≤ 64 }
    ensures { Reads result (filters.one_read fields.now index.now document) }
{
    let mut elements = document.into_fields();
    match (elements.pop(), elements.is_empty()) {
        (Some((name, value)), true) => {
            inside(alloc, index, term(alloc, fields, name.as_str(), value))
        }
        _ => refuse(alloc, index, Kind::WrongType),
    }
}

// A term in a filter.
#[derive(Clone, Copy)]
struct TermItem<'a> {
    fields: &'a [Field],
}

impl<'a> Item for TermItem<'a> {
    ghost use Rattle.std.specs.Prelude.{◌≤◌, length};
    ghost use Rattle.qe_command_parts.specs.FilterArrays.{term_item};

    type Out = SentTerm;

    ghost reads = { λ it. term_item it.fields.now };

    ghost fits = { λ it. length it.fields.now ≤ 64 };

    #[tactic(auto, unfolding(crate::specs::FilterArrays::term_item))]
    fn item(&self, alloc: Global, index: &str, value: Value) -> Result<SentTerm, Malformed> {
        let term = document(alloc, index, value)?;
        one(alloc, self.fields, index, term)
    }
}

/// The terms of a filter: an array of documents of one element each, or the first refusal and its path.
pub fn filter(
    alloc: Global,
    fields: &[Field],
    name: &str,
    value: Value,
) -> Result<SentFilter, Malformed>
    requires { length fields.now ≤ 64 }
    ensures { Reads result (filters.filter_reads fields.now name.now (plain value)) }
{
    items(alloc, &TermItem { fields }, name, value)
}
