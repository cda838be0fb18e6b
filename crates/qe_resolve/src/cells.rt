//! The values of a document or of a set, judged in the order of the names.

ghost use Rattle.std.specs.Prelude.{◌≡◌, ◌<◌, ◌≤◌, IfOk, IfSome, length, map};
ghost use Rattle.qe_base.specs.Answers.{Answers};
ghost use Rattle.qe_value.specs.Views.{plain, field_view};
ghost use Rattle.qe_filter.specs.Faults.{plain_refusal};
ghost use Rattle.qe_resolve.specs.Cells as cells;
ghost use Rattle.qe_resolve.specs.Slots.{empty_slots, listed_from};
ghost use Rattle.qe_field.specs.Values as values;

use crate::slots::empty_slots;
use qe_base::{NoMemory, Text};
use qe_edges::Domain;
use qe_field::{Field, FieldKind, is_id, is_reserved, number_in};
use qe_filter::{PlainFault, known_or, typed_or};
use qe_plain::{Carried, Cells, PlainCell};
use qe_value::{Document, Value};
use std::alloc::Global;

// Whether the value is a number of the domain.
fn is_within(domain: &Domain, value: &Value) -> bool
    ensures { result ≡ values.lies_in domain.now.min domain.now.max (values.number_in (plain value.now)) }
{
    match number_in(value) {
        Some(number) => domain.min() <= number && number <= domain.max(),
        None => false,
    }
}

// The value that a field of a kind keeps.
fn kept_value(
    alloc: Global,
    name: &str,
    kind: &FieldKind,
    value: &Value,
) -> Result<Carried, PlainFault>
    ensures { Answers (λ it. it) plain_refusal result (cells.kept_value name.now kind.now (plain value.now)) }
{
    match kind {
        FieldKind::Plain => Ok(Carried::of(value)?),
        FieldKind::Equality { value_kind, .. } => typed_or(alloc, name, *value_kind, value),
        FieldKind::Range {
            value_kind,
            domain,
            ..
        } => value_within(alloc, name, *value_kind, domain, value),
    }
}

// The value that a range field keeps.
fn value_within(
    alloc: Global,
    name: &str,
    kind: u8,
    domain: &Domain,
    value: &Value,
) -> Result<Carried, PlainFault>
    ensures { Answers (λ it. it) plain_refusal result (cells.range_value name.now kind domain.now (plain value.now)) }
{
    let value = typed_or(alloc, name, kind, value)?;
    if !is_within(domain, value.value()) {
        return Err(PlainFault::OutOfDomain(Text::of(alloc, name)?));
    }
    Ok(value)
}

// Whether no field may have the name: it is reserved, or is `_id` in a set.
fn is_refused(in_set: bool, name: &str) -> bool
    ensures { result ≡ cells.is_refused in_set name.now }
{
    is_reserved(name) || (in_set && name == "_id")
}

// One name: the cell of its field, and none for `_id`.
fn name_cell(
    alloc: Global,
    in_set: bool,
    fields: &[Field],
    element: &(Text, Value),
) -> Result<Option<(u32, Carried)>, PlainFault>
    requires { length fields.now ≤ 64 }
    ensures exact { Answers (λ it. it) plain_refusal result (cells.name_cell in_set fields.now (field_view element.now)) }
    ensures within { IfOk result (λ cell. IfSome cell (λ placed. placed.0 < length fields.now)) }
{
    let name = element.0.as_str();
    if is_refused(in_set, name) {
        return Err(PlainFault::ReservedName(Text::of(alloc, name)?));
    }
    if name == "_id" {
        if !is_id(&element.1) {
            return Err(PlainFault::BadId);
        }
        return Ok(None);
    }
    let (field, kind) = known_or(alloc, fields, name)?;
    let value = kept_value(alloc, name, &kind, &element.1)?;
    Ok(Some((field, value)))
}

// Each name's cell at its field's place.
fn filled(
    alloc: Global,
    in_set: bool,
    fields: &[Field],
    elements: &[(Text, Value)],
) -> Result<Vec<Option<Carried>>, PlainFault>
    requires { length fields.now ≤ 64 }
    ensures exact { Answers (λ it. it.items) plain_refusal result (cells.slots_from in_set fields.now (empty_slots fields.now) (map field_view elements.now)) }
    ensures count { IfOk result (λ it. length it.items ≡ length fields.now) }
{
    let mut slots = empty_slots(alloc, fields)?;
    for element in elements {
        if let Some((field, value)) = name_cell(alloc, in_set, fields, element)? {
            slots[field as usize] = Some(value);
        }
    }
    Ok(slots)
}

// What stands at the places.
fn listed(alloc: Global, slots: Vec<Option<Carried>>) -> Result<Cells, NoMemory>
    requires { length slots.items ≤ 64 }
    ensures { IfOk result (λ it. it ≡ listed_from cells.cell 0 slots.items) }
{
    let mut cells = Cells::new(alloc);
    let mut field: u32 = 0;
    for slot in slots {
        if let Some(value) = slot {
            cells.push(PlainCell { field, value })?;
        }
        field += 1;
    }
    Ok(cells)
}

/// The cells of a document or of a set, in rising field number.
pub(crate) fn cells_of(
    alloc: Global,
    in_set: bool,
    fields: &[Field],
    document: &Document,
) -> Result<Cells, PlainFault>
    requires { length fields.now ≤ 64 }
    ensures { Answers (λ it. it) plain_refusal result (cells.cells_of in_set fields.now document.now) }
{
    let slots = filled(alloc, in_set, fields, document.slice())?;
    let cells = listed(alloc, slots)?;
    Ok(cells)
}
