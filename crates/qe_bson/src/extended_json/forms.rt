//! Objects of a form, and numbers.

ghost use Rattle.serde_json.specs.View.{view, number_view};
ghost use Rattle.qe_document.specs.Views.{plain};
ghost use Rattle.qe_base.specs.Answers.{Answers};
ghost use Rattle.qe_bson.specs.JsonFaults.{json_refusal};
ghost use Rattle.qe_bson.specs.JsonForms.{form_value, number_value};

use crate::Value;
use crate::extended_json::fault::JsonFault;
use qe_json_forms::{Form, value_in};
use serde_json::{Number, Value as Json};
use std::alloc::Global;

/// The value of a form, where so many levels are left for objects in it.
pub(crate) fn form_value(
    alloc: Global,
    form: Form,
    json: &Json,
    room: u32,
) -> Result<Value, JsonFault>
    ensures { Answers plain json_refusal result (form_value room (form, view json.now)) }
{
    let Some(value) = value_in(alloc, form, json)? else {
        return Err(JsonFault::BadForm);
    };
    if room == 0 && json.is_object() {
        return Err(JsonFault::TooDeep);
    }
    Ok(value)
}

/// The value of a JSON number.
pub(crate) fn number_of(number: &Number) -> Result<Value, JsonFault>
    ensures { Answers plain json_refusal result (number_value (number_view number.now)) }
{
    let Some(n) = number.as_i64() else {
        return Err(JsonFault::BadNumber);
    };
    match i32::try_from(n) {
        Ok(n) => Ok(Value::Int32(n)),
        Err(_) => Ok(Value::Int64(n)),
    }
}
