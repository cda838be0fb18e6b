//! Values, and what their types tell of them.

ghost use Rattle.std.specs.Prelude.{◌≡◌, ◌<◌, All};
ghost use Rattle.qe_base.specs.Bytes.{AreBytes};
ghost use Rattle.qe_value.specs.Spelling.{array_bytes, document_bytes, spelled};
ghost use Rattle.qe_value.specs.Views.{plain};
ghost use Rattle.qe_held.specs.Held.{IsHeldValue, IsOfBytes};

use qe_base::Text;
use qe_value::{Document, Value, Values, value_has_zero};

/// The items of a slice of bytes are bytes.
pub fn are_bytes(bytes: &[u8])
    ensures { AreBytes bytes.now }
{
    let _bytes = bytes;
}

fn is_byte(number: &u8)
    ensures { number.now < 256 }
{
    let _number = *number;
}

// A value that holds no other.
fn leaf_bytes(value: &Value)
    ensures { IsOfBytes value.now }
{
    match value {
        Value::Double(bytes) => are_bytes(bytes),
        Value::Str(text) => are_bytes(text.as_str().as_bytes()),
        Value::Binary { subtype, bytes } => {
            is_byte(subtype);
            are_bytes(bytes.slice());
        }
        Value::ObjectId(bytes) => are_bytes(bytes),
        Value::Decimal(bytes) => are_bytes(bytes),
        Value::Doc(_)
        | Value::Array(_)
        | Value::Bool(_)
        | Value::Date(_)
        | Value::Null
        | Value::Int32(_)
        | Value::Timestamp(_)
        | Value::Int64(_) => {}
    }
}

#[cycle(bytes)]
fn value_bytes(value: &Value)
    ensures { AreBytes (spelled (plain value.now)).bytes }
{
    match value {
        Value::Doc(document) => document_of_bytes(document),
        Value::Array(items) => array_of_bytes(items),
        _ => leaf_bytes(value),
    }
}

#[cycle(bytes)]
fn field_bytes(name: &Text, value: &Value)
    ensures name { AreBytes name.now }
    ensures value { AreBytes (spelled (plain value.now)).bytes }
{
    are_bytes(name.as_str().as_bytes());
    value_bytes(value);
}

#[cycle(bytes)]
fn document_of_bytes(document: &Document)
    ensures { AreBytes (document_bytes document.now) }
{
    for (name, value) in document.slice() {
        field_bytes(name, value);
    }
}

#[cycle(bytes)]
fn array_of_bytes(values: &Values)
    ensures { AreBytes (array_bytes values.now) }
{
    for item in values.slice() {
        value_bytes(item);
    }
}

/// A value is spelled by bytes, and fits where it isn't too deep and no name in it has a byte 0.
pub fn value_held(value: &Value)
    ensures { IsHeldValue (plain value.now) }
{
    value_bytes(value);
    let _zero = value_has_zero(value);
}
