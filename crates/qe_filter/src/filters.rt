//! The terms of a filter.

ghost use Rattle.std.specs.Prelude.{◌≡◌, ◌≤◌, ℕ, List, ◌==◌, length, map, option_map};
ghost use Rattle.std.specs.List.{list_all};
ghost use Rattle.std.specs.Option.{option_copied};
ghost use Rattle.qe_base.specs.Answers.{Answers};
ghost use Rattle.qe_value.specs.Views.{plain, field_view, fields_of, items_of};
ghost use Rattle.qe_filter.specs.Faults.{plain_refusal};
ghost use Rattle.qe_field.specs.Judgements.{ahead, Leaves};
ghost use Rattle.qe_filter.specs.Filters as filters;

use crate::fault::PlainFault;
use crate::indexing::known_or;
use crate::typing::{number_or, typed_or};
use qe_base::Text;
use qe_edges::Domain;
use qe_field::{Field, FieldKind, elements_in, is_id, is_reserved, items_in};
use qe_plain::{Carried, Filter, Term};
use qe_value::{Document, Value};
use std::alloc::Global;

// The ends of an interval that are given.
#[derive(Clone, Copy)]
struct Ends<'a> {
    low: Option<&'a Value>,
    high: Option<&'a Value>,
}

fn is_end(element: &(Text, Value)) -> bool
    ensures { result ≡ filters.is_end (field_view element.now) }
{
    let name = element.0.as_str();
    name == "$gte" || name == "$lte"
}

fn are_ends(elements: &Document) -> bool
    ensures { result ≡ list_all filters.is_end elements.now }
{
    for element in elements.slice() {
        if !is_end(element) {
            return false;
        }
    }
    true
}

// A document with the names `$gte`, `$lte` or both, and no other.
fn interval_of(elements: &Document) -> Option<Ends<'_>>
    ensures { option_map filters.ends_view result ≡ filters.interval_of elements.now }
{
    if elements.len() > 0 && are_ends(elements) {
        Some(Ends {
            low: elements.get("$gte"),
            high: elements.get("$lte"),
        })
    } else {
        None
    }
}

// A missing end is the domain's.
fn end_of(
    alloc: Global,
    name: &str,
    kind: u8,
    missing: i64,
    given: Option<&Value>,
) -> Result<i64, PlainFault>
    ensures { Answers (λ it. it) plain_refusal result (filters.end_of name.now kind missing (option_map plain (option_copied given.entry))) }
{
    match given {
        None => Ok(missing),
        Some(value) => number_or(alloc, name, kind, value),
    }
}

fn between(
    alloc: Global,
    name: &str,
    field: u32,
    kind: u8,
    domain: &Domain,
    ends: Ends<'_>,
) -> Result<Term, PlainFault>
    ensures { Answers (λ it. it) plain_refusal result (filters.between name.now field kind domain.now (filters.ends_view ends.entry)) }
{
    let lo = end_of(alloc, name, kind, domain.min(), ends.low)?;
    let hi = end_of(alloc, name, kind, domain.max(), ends.high)?;
    Ok(Term::Between { field, lo, hi })
}

// A term of an equality field.
fn equal_term(
    alloc: Global,
    name: &str,
    field: u32,
    kind: u8,
    value: &Value,
) -> Result<Term, PlainFault>
    ensures { Answers (λ it. it) plain_refusal result (filters.equal_term name.now field kind (plain value.now) (fields_of (plain value.now))) }
{
    let Some(elements) = elements_in(value) else {
        let value = typed_or(alloc, name, kind, value)?;
        return Ok(Term::Equal { field, value });
    };
    let name = Text::of(alloc, name)?;
    match interval_of(elements) {
        Some(_) => Err(PlainFault::NotIndexed(name)),
        None => Err(PlainFault::TypeDiffers(name)),
    }
}

// A term of a range field; a value is both ends.
fn range_term(
    alloc: Global,
    name: &str,
    field: u32,
    kind: u8,
    domain: &Domain,
    value: &Value,
) -> Result<Term, PlainFault>
    ensures { Answers (λ it. it) plain_refusal result (filters.range_term name.now field kind domain.now (plain value.now) (fields_of (plain value.now))) }
{
    let Some(elements) = elements_in(value) else {
        let number = number_or(alloc, name, kind, value)?;
        return Ok(Term::Between {
            field,
            lo: number,
            hi: number,
        });
    };
    let Some(ends) = interval_of(elements) else {
        return Err(PlainFault::BadFilter(Text::of(alloc, name)?));
    };
    between(alloc, name, field, kind, domain, ends)
}

// One name of a filter, other than `$and`.
fn term_of(alloc: Global, fields: &[Field], name: &str, value: &Value) -> Result<Term, PlainFault>
    requires { length fields.now ≤ 64 }
    ensures { Answers (λ it. it) plain_refusal result (filters.term_of fields.now name.now (plain value.now)) }
{
    if is_reserved(name) {
        return Err(PlainFault::ReservedName(Text::of(alloc, name)?));
    }
    if name == "_id" {
        if !is_id(value) {
            return Err(PlainFault::BadId);
        }
        return Ok(Term::Id(Carried::of(value)?));
    }
    let (field, field_kind) = known_or(alloc, fields, name)?;
    match &field_kind {
        FieldKind::Plain => Err(PlainFault::NotIndexed(Text::of(alloc, name)?)),
        FieldKind::Equality { value_kind, .. } => {
            equal_term(alloc, name, field, *value_kind, value)
        }
        FieldKind::Range {
            value_kind,
            domain,
            ..
        } => range_term(alloc, name, field, *value_kind, domain, value),
    }
}

// Adds the term of one name.
#[tactic(auto, unfolding(crate::specs::Filters::one_term))]
fn one_term(
    alloc: Global,
    fields: &[Field],
    element: &(Text, Value),
    terms: &mut Filter,
) -> Result<(), PlainFault>
    requires { length fields.now ≤ 64 }
    ensures { Leaves plain_refusal result terms.new (ahead terms.old (filters.one_term fields.now (field_view element.now))) }
{
    let (name, value) = element;
    let term = term_of(alloc, fields, name.as_str(), value)?;
    terms.push(term)?;
    Ok(())
}

// Adds the terms of a filter without `$and`.
fn flat_terms(
    alloc: Global,
    fields: &[Field],
    elements: &Document,
    terms: &mut Filter,
) -> Result<(), PlainFault>
    requires { length fields.now ≤ 64 }
    ensures { Leaves plain_refusal result terms.new (ahead terms.old (filters.flat_terms fields.now elements.now)) }
{
    for element in elements.slice() {
        one_term(alloc, fields, element, terms)?;
    }
    Ok(())
}

// Whether a value is a filter without `$and`.
fn is_flat(value: &Value) -> bool
    ensures { result ≡ filters.is_flat (plain value.now) }
{
    let Some(elements) = elements_in(value) else {
        return false;
    };
    elements.get("$and").is_none()
}

fn all_flat(members: &[Value]) -> bool
    ensures { result ≡ list_all filters.is_flat (map plain members.now) }
{
    for member in members {
        if !is_flat(member) {
            return false;
        }
    }
    true
}

// Adds the terms of a filter that stands under `$and`.
fn member_terms(
    alloc: Global,
    fields: &[Field],
    member: &Value,
    terms: &mut Filter,
) -> Result<(), PlainFault>
    requires { length fields.now ≤ 64 }
    ensures { Leaves plain_refusal result terms.new (ahead terms.old (filters.member_terms fields.now (plain member.now))) }
{
    let Some(elements) = elements_in(member) else {
        return Err(PlainFault::BadFilter(Text::of(alloc, "$and")?));
    };
    flat_terms(alloc, fields, elements, terms)
}

// Adds the terms of all filters that stand under `$and`.
fn all_terms(
    alloc: Global,
    fields: &[Field],
    members: &[Value],
    terms: &mut Filter,
) -> Result<(), PlainFault>
    requires { length fields.now ≤ 64 }
    ensures { Leaves plain_refusal result terms.new (ahead terms.old (filters.all_terms fields.now (map plain members.now))) }
{
    if !all_flat(members) {
        return Err(PlainFault::BadFilter(Text::of(alloc, "$and")?));
    }
    for member in members {
        member_terms(alloc, fields, member, terms)?;
    }
    Ok(())
}

// Adds the terms of `$and`.
fn and_terms(
    alloc: Global,
    fields: &[Field],
    value: &Value,
    terms: &mut Filter,
) -> Result<(), PlainFault>
    requires { length fields.now ≤ 64 }
    ensures { Leaves plain_refusal result terms.new (ahead terms.old (filters.and_terms fields.now (plain value.now))) }
{
    let Some(members) = items_in(value) else {
        return Err(PlainFault::BadFilter(Text::of(alloc, "$and")?));
    };
    all_terms(alloc, fields, members.slice(), terms)
}

// Adds the terms of one name.
#[tactic(auto, unfolding(crate::specs::Filters::name_terms))]
fn name_terms(
    alloc: Global,
    fields: &[Field],
    element: &(Text, Value),
    terms: &mut Filter,
) -> Result<(), PlainFault>
    requires { length fields.now ≤ 64 }
    ensures { Leaves plain_refusal result terms.new (ahead terms.old (filters.name_terms fields.now (field_view element.now))) }
{
    if element.0.as_str() == "$and" {
        and_terms(alloc, fields, &element.1, terms)
    } else {
        one_term(alloc, fields, element, terms)
    }
}

/// The terms of a filter.
pub fn filter_terms(
    alloc: Global,
    fields: &[Field],
    filter: &Document,
) -> Result<Filter, PlainFault>
    requires { length fields.now ≤ 64 }
    ensures { Answers (λ it. it) plain_refusal result (filters.filter_terms fields.now filter.now) }
{
    let mut terms = Filter::new(alloc);
    for element in filter.slice() {
        name_terms(alloc, fields, element, &mut terms)?;
    }
    Ok(terms)
}
