//! Equality of values.

ghost use Rattle.std.specs.Prelude.{◌≡◌, ◌↔◌, IsTrue, ℕ, List};
ghost use Rattle.qe_value.specs.Spelling.{IsAlone};
ghost use Rattle.qe_value.specs.Views.{plain};

use crate::value::{Document, Value, Values};

impl Value {
    /// Whether the other value is the same. Of values that fit in a document, those are the same that have one type and
    /// the same bytes. Where a name holds the byte 0 no bytes stand for the value: two that differ may then be written
    /// alike, and are not equal here.
    pub fn equals(&self, other: &Value) -> bool
        ensures exact { IsTrue result ↔ (self.now ≡ other.now) }
        ensures bytes { (kind : ℕ) (bytes : List ℕ) → IsAlone kind bytes (plain self.now) → (IsTrue result ↔ IsAlone kind bytes (plain other.now)) }
    {
        is_same(self, other)
    }
}

#[cycle(equal)]
fn is_same(one: &Value, other: &Value) -> bool
    ensures { IsTrue result ↔ (one.now ≡ other.now) }
{
    match (one, other) {
        (Value::Double(a), Value::Double(b)) => a == b,
        (Value::Str(a), Value::Str(b)) => a.as_str() == b.as_str(),
        (Value::Doc(a), Value::Doc(b)) => is_same_document(a, b),
        (Value::Array(a), Value::Array(b)) => are_same_items(a, b),
        (
            Value::Binary { subtype, bytes },
            Value::Binary {
                subtype: other,
                bytes: others,
            },
        ) => subtype == other && bytes.slice() == others.slice(),
        (Value::ObjectId(a), Value::ObjectId(b)) => a == b,
        (Value::Bool(a), Value::Bool(b)) => a == b,
        (Value::Date(a), Value::Date(b)) => a == b,
        (Value::Null, Value::Null) => true,
        (Value::Int32(a), Value::Int32(b)) => a == b,
        (Value::Timestamp(a), Value::Timestamp(b)) => a == b,
        (Value::Int64(a), Value::Int64(b)) => a == b,
        (Value::Decimal(a), Value::Decimal(b)) => a == b,
        _ => false,
    }
}

#[cycle(equal)]
fn is_same_document(one: &Document, other: &Document) -> bool
    ensures { IsTrue result ↔ (one.now ≡ other.now) }
{
    if one.fields.len() != other.fields.len() {
        return false;
    }
    for (i, field) in one.fields.iter().enumerate() {
        let (name, value) = field;
        let (other_name, other_value) = &other.fields[i];
        if name.as_str() != other_name.as_str() {
            return false;
        }
        if !is_same(value, other_value) {
            return false;
        }
    }
    true
}

#[cycle(equal)]
fn are_same_items(one: &Values, other: &Values) -> bool
    ensures { IsTrue result ↔ (one.now ≡ other.now) }
{
    if one.items.len() != other.items.len() {
        return false;
    }
    for (i, item) in one.items.iter().enumerate() {
        if !is_same(item, &other.items[i]) {
            return false;
        }
    }
    true
}
