//! Values, and what their types tell of them.

ghost use Rattle.std.specs.Prelude.{◌≡◌, ℕ, ◌<◌, true, length, FitsSigned};
ghost use Rattle.std.specs.Int.{w32, w64};
ghost use Rattle.std.specs.Str.{is_utf8};
ghost use Rattle.qe_base.specs.Bytes.{AreBytes};
ghost use Rattle.qe_meant.specs.Held.{IsHeld, IsHeldTree};

use qe_base::Text;
use qe_plain::Carried;
use qe_value::Value;

/// The items of a slice of bytes are bytes.
pub(crate) fn are_bytes(bytes: &[u8])
    ensures { AreBytes bytes.now }
{
    let _bytes = bytes;
}

fn is_byte(number: &u8)
    ensures { number.now < 256 }
{
    let _number = *number;
}

fn is_text(text: &Text)
    ensures utf8 { is_utf8 text.now ≡ true }
    ensures bytes { AreBytes text.now }
{
    are_bytes(text.as_str().as_bytes());
}

fn is_object_id(bytes: &[u8; 12])
    ensures long { length bytes.now ≡ 12 }
    ensures bytes { AreBytes bytes.now }
{
    are_bytes(bytes);
}

fn fits_32(number: &i32)
    ensures { FitsSigned w32 number.now }
{
    let _number = *number;
}

fn fits_64(number: &i64)
    ensures { FitsSigned w64 number.now }
{
    let _number = *number;
}

/// A value of a type that a field or an id may have is one of that type.
pub(crate) fn held(value: &Value)
    ensures { IsHeld value.now }
{
    match value {
        Value::Str(text) => is_text(text),
        Value::Binary { subtype, bytes } => {
            is_byte(subtype);
            are_bytes(bytes.slice());
        }
        Value::ObjectId(bytes) => is_object_id(bytes),
        Value::Date(number) => fits_64(number),
        Value::Int64(number) => fits_64(number),
        Value::Int32(number) => fits_32(number),
        Value::Double(_)
        | Value::Doc(_)
        | Value::Array(_)
        | Value::Bool(_)
        | Value::Null
        | Value::Timestamp(_)
        | Value::Decimal(_) => {}
    }
}

/// .. so is one that is carried.
pub(crate) fn carried(value: &Carried)
    ensures { IsHeldTree value.now }
{
    held(value.value());
}
