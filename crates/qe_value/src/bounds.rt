//! What a document has to meet to be written: a depth of at most 100, and no byte 0 in a name.

ghost use Rattle.std.specs.Prelude.{◌≡◌, ℕ, ◌≤◌, nat_le, false, length};
ghost use Rattle.qe_value.specs.Spelling.{Fits_with, LeafFits, FieldsFit, ItemsFit};
ghost use Rattle.qe_value.specs.declared.value.Plain.{out-Plain};
ghost use Rattle.qe_value.specs.Views.{plain};
ghost use Rattle.qe_value.specs.Measures.{depth, fields_depth, holds_zero, items_depth, zero_in, zero_in_fields, zero_in_items};

use crate::value::{Document, Value, Values};

/// Whether a value has at most so many levels.
#[cycle(depth)]
pub fn value_within(value: &Value, room: u32) -> bool
    ensures { result ≡ nat_le (depth (plain value.now)) room }
{
    match value {
        Value::Doc(document) => is_within(document, room),
        Value::Array(items) => array_within(items, room),
        _ => true,
    }
}

/// Whether a document has at most so many levels, itself among them.
#[cycle(depth)]
pub fn is_within(document: &Document, room: u32) -> bool
    ensures { result ≡ nat_le (fields_depth document.now) room }
{
    if room == 0 {
        return false;
    }
    for (_, value) in &document.fields {
        if !value_within(value, room - 1) {
            return false;
        }
    }
    true
}

#[cycle(depth)]
fn array_within(values: &Values, room: u32) -> bool
    ensures { result ≡ nat_le (items_depth values.now) room }
{
    if room == 0 {
        return false;
    }
    for item in &values.items {
        if !value_within(item, room - 1) {
            return false;
        }
    }
    true
}

fn name_holds_zero(name: &str) -> bool
    ensures { result ≡ holds_zero name.now }
{
    name.as_bytes().contains(&0)
}

// An array has as many bytes as its type says.
fn has_length<const N: usize>(bytes: &[u8; N])
    ensures { length bytes.now ≡ N }
{
    let _bytes = bytes;
}

// A value that holds no other fits by its type.
fn fits_by_type(value: &Value)
    ensures { LeafFits (plain value.now) }
{
    match value {
        Value::Double(bytes) => has_length(bytes),
        Value::Str(text) => {
            let _text = text.as_str();
        }
        Value::ObjectId(bytes) => has_length(bytes),
        Value::Date(n) => {
            let _n = *n;
        }
        Value::Int32(n) => {
            let _n = *n;
        }
        Value::Timestamp(n) => {
            let _n = *n;
        }
        Value::Int64(n) => {
            let _n = *n;
        }
        Value::Decimal(bytes) => has_length(bytes),
        Value::Doc(_) => {}
        Value::Array(_) => {}
        Value::Binary { .. } => {}
        Value::Bool(_) => {}
        Value::Null => {}
    }
}

/// Whether a name in the value holds the byte 0. A value without such a name fits, where its levels do.
#[cycle(zero)]
pub fn value_has_zero(value: &Value) -> bool
    ensures zero { result ≡ zero_in (plain value.now) }
    ensures fits { (room : ℕ) → depth (plain value.now) ≤ room → result ≡ false → Fits_with (FieldsFit room) (ItemsFit room) (out-Plain (plain value.now)) }
{
    match value {
        Value::Doc(document) => has_zero(document),
        Value::Array(items) => array_has_zero(items),
        _ => {
            fits_by_type(value);
            false
        }
    }
}

/// Whether a name in the document holds the byte 0.
#[cycle(zero)]
pub fn has_zero(document: &Document) -> bool
    ensures zero { result ≡ zero_in_fields document.now }
    ensures fits { (room : ℕ) → fields_depth document.now ≤ room → result ≡ false → FieldsFit room document.now }
{
    for (name, value) in &document.fields {
        if name_holds_zero(name.as_str()) {
            return true;
        }
        if value_has_zero(value) {
            return true;
        }
    }
    false
}

#[cycle(zero)]
fn array_has_zero(values: &Values) -> bool
    ensures zero { result ≡ zero_in_items values.now }
    ensures fits { (room : ℕ) → items_depth values.now ≤ room → result ≡ false → ItemsFit room values.now }
{
    for item in &values.items {
        if value_has_zero(item) {
            return true;
        }
    }
    false
}
