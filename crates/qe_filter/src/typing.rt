//! Values of a field's type.

ghost use Rattle.std.specs.Prelude.{◌≡◌, IfOk};
ghost use Rattle.qe_base.specs.Answers.{Answers};
ghost use Rattle.qe_value.specs.Views.{plain};
ghost use Rattle.qe_field.specs.Judgements.{some_or};
ghost use Rattle.qe_filter.specs.Faults.{plain_refusal};
ghost use Rattle.qe_filter.specs.Typed as spec;
ghost use Rattle.qe_filter.specs.declared.fault.PlainFault.TheVariants as f;

use crate::fault::PlainFault;
use qe_base::{NoMemory, Text};
use qe_encode::value_kind;
use qe_plain::Carried;
use qe_value::Value;
use std::alloc::Global;

// The type bytes of an int32 and an int64 (bsonspec.org, BSON 1.1).
const INT32: u8 = 0x10;

const INT64: u8 = 0x12;

// An int32 as an int64, where that is the type.
fn widened(kind: u8, value: &Value) -> Option<Carried>
    ensures { result ≡ spec.widened kind (plain value.now) }
{
    match value {
        Value::Int32(number) => {
            if kind == INT64 {
                Some(Carried::new(Value::Int64(i64::from(*number))))
            } else {
                None
            }
        }
        _ => None,
    }
}

// The value as one of a type, where it is one or an int32 that is widened.
fn typed(kind: u8, value: &Value) -> Result<Option<Carried>, NoMemory>
    ensures { IfOk result (λ it. it ≡ spec.typed kind (plain value.now)) }
{
    if value_kind(value) == kind {
        let value = Carried::of(value)?;
        return Ok(Some(value));
    }
    Ok(widened(kind, value))
}

/// The value as one of the field's type.
pub fn typed_or(alloc: Global, name: &str, kind: u8, value: &Value) -> Result<Carried, PlainFault>
    ensures { Answers (λ it. it) plain_refusal result (some_or (f.TypeDiffers name.now) (spec.typed kind (plain value.now))) }
{
    match typed(kind, value)? {
        Some(value) => Ok(value),
        None => Err(PlainFault::TypeDiffers(Text::of(alloc, name)?)),
    }
}

// The number of a value of an integer type.
fn number_of(kind: u8, value: &Value) -> Option<i64>
    ensures { result ≡ spec.number_of kind (plain value.now) }
{
    match value {
        Value::Int32(number) => {
            if kind == INT32 || kind == INT64 {
                Some(i64::from(*number))
            } else {
                None
            }
        }
        Value::Int64(number) => { if kind == INT64 { Some(*number) } else { None } }
        _ => None,
    }
}

/// The number of a value of the field's type.
pub(crate) fn number_or(
    alloc: Global,
    name: &str,
    kind: u8,
    value: &Value,
) -> Result<i64, PlainFault>
    ensures { Answers (λ it. it) plain_refusal result (some_or (f.TypeDiffers name.now) (spec.number_of kind (plain value.now))) }
{
    match number_of(kind, value) {
        Some(number) => Ok(number),
        None => Err(PlainFault::TypeDiffers(Text::of(alloc, name)?)),
    }
}
