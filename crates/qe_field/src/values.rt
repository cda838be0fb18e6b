//! What a value is where it stands in a field, as an id, or in a filter.

ghost use Rattle.std.specs.Prelude.{◌≡◌, option_map};
ghost use Rattle.std.specs.Option.{option_copied};
ghost use Rattle.qe_value.specs.Views.{plain, fields_of, items_of};
ghost use Rattle.qe_field.specs.Values as values;

use qe_encode::value_kind;
use qe_value::{Document, Value, Values};

/// Whether the value is an int32, an int64, a string or an object id.
pub fn is_id(value: &Value) -> bool
    ensures { result ≡ values.is_id (plain value.now) }
{
    let kind = value_kind(value);
    kind == 0x10 || kind == 0x12 || kind == 0x02 || kind == 0x07
}

/// The number of an integer.
pub fn number_in(value: &Value) -> Option<i64>
    ensures { result ≡ values.number_in (plain value.now) }
{
    match value {
        Value::Int32(number) => Some(i64::from(*number)),
        Value::Int64(number) => Some(*number),
        _ => None,
    }
}

/// The text of a string.
pub fn text_in(value: &Value) -> Option<&str>
    ensures { option_map (λ text. text.now) result ≡ values.text_in (plain value.now) }
{
    match value {
        Value::Str(text) => Some(text.as_str()),
        _ => None,
    }
}

/// The elements of a document.
pub fn elements_in(value: &Value) -> Option<&Document>
    ensures { option_copied result ≡ fields_of (plain value.now) }
{
    value.as_document()
}

/// The items of an array.
pub fn items_in(value: &Value) -> Option<&Values>
    ensures { option_copied result ≡ items_of (plain value.now) }
{
    value.as_array()
}
