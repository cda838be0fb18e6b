//! How many bytes values have.

ghost use Rattle.std.specs.Prelude.{◌≡◌, ◌+◌, length, decimal};
ghost use Rattle.qe_value.specs.Measures.{value_length as length_of_value, document_length as length_of_document, items_length};
ghost use Rattle.qe_value.specs.Views.{plain};
ghost use Rattle.qe_fits.specs.Counts.{capped, leaf_length as length_of_leaf, values_size};
ghost use Rattle.qe_fits.specs.Sizes.{array_of, array_size};

use itoa::Buffer;
use qe_value::{Document, Value, Values};

/// The bytes of a document, an array, a string or a binary that are its own: its length, and the byte 0 or the subtype.
pub(crate) const FRAME: u32 = 5;

/// A number as a count.
pub(crate) fn count_of(number: usize) -> u32
    ensures { result ≡ capped number }
{
    if number <= 4_294_967_295 {
        number as u32
    } else {
        u32::MAX
    }
}

/// The bytes of an element: its type, its name with the byte 0 behind it, and its value.
pub(crate) fn element_length(name: &str, value: u32) -> u32
    ensures { result ≡ capped (length name.now + 2 + value) }
{
    count_of(name.len()).saturating_add(2).saturating_add(value)
}

/// The bytes of an array's item: its type, its place with the byte 0 behind it, and its value.
pub(crate) fn item_length(place: usize, value: u32) -> u32
    ensures { result ≡ capped (length (decimal place) + 2 + value) }
{
    let mut buffer = Buffer::new();
    element_length(buffer.format(place), value)
}

/// The bytes of an array of so many items of one length.
pub(crate) fn length_of_items(count: usize, item: u32) -> u32
    ensures { result ≡ capped (array_of count item) }
{
    let mut length = FRAME;
    for place in 0..count {
        length = length.saturating_add(item_length(place, item));
    }
    length
}

// The number of bytes as a count.
fn count_of_bytes(bytes: &[u8]) -> u32
    ensures { result ≡ capped (length bytes.now) }
{
    count_of(bytes.len())
}

// The bytes of a value that holds no other.
fn leaf_length(value: &Value) -> u32
    ensures { result ≡ capped (length_of_leaf value.now) }
{
    match value {
        Value::Str(text) => count_of(text.as_str().len()).saturating_add(FRAME),
        Value::Binary { bytes, .. } => count_of(bytes.len()).saturating_add(FRAME),
        Value::Double(bytes) => count_of_bytes(bytes),
        Value::ObjectId(bytes) => count_of_bytes(bytes),
        Value::Decimal(bytes) => count_of_bytes(bytes),
        Value::Date(_) | Value::Int64(_) | Value::Timestamp(_) => 8,
        Value::Int32(_) => 4,
        Value::Bool(_) => 1,
        Value::Null | Value::Doc(_) | Value::Array(_) => 0,
    }
}

/// The bytes of a value.
#[cycle(length)]
pub(crate) fn value_length(value: &Value) -> u32
    ensures { result ≡ capped (length_of_value (plain value.now)) }
{
    match value {
        Value::Doc(document) => document_length(document),
        Value::Array(items) => array_length(items),
        _ => leaf_length(value),
    }
}

#[cycle(length)]
fn document_length(document: &Document) -> u32
    ensures { result ≡ capped (length_of_document document.now) }
{
    let mut length = FRAME;
    for (name, value) in document.slice() {
        length = length.saturating_add(element_length(name.as_str(), value_length(value)));
    }
    length
}

#[cycle(length)]
fn array_length(items: &Values) -> u32
    ensures { result ≡ capped (values_size items.now) }
{
    let mut length = FRAME;
    for (place, item) in items.slice().iter().enumerate() {
        length = length.saturating_add(item_length(place, value_length(item)));
    }
    length
}
