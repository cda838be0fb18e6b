//! JSON from values.

ghost use Rattle.std.specs.Prelude.{◌≡◌, ◌≤◌, true, false, map, Ok, IfOk, OnOk};
ghost use Rattle.serde_json.specs.View.{view};
ghost use Rattle.serde_json.specs.Written.{has_float};
ghost use Rattle.qe_document.specs.Limits.{most_levels};
ghost use Rattle.qe_document.specs.Views.{plain, opened};
ghost use Rattle.qe_base.specs.Answers.{Answers};
ghost use Rattle.qe_bson.specs.JsonFaults.{json_refusal};
ghost use Rattle.qe_bson.specs.JsonReading.{value_of_json};
ghost use Rattle.qe_bson.specs.JsonRound.{typed_step, parts_typed, fields_typed, items_typed};
ghost use Rattle.qe_bson.specs.JsonRound.{ordered, levels};
ghost use Rattle.qe_bson.specs.JsonWriting.{json_of, json_field, json_array, json_object, json_step};

use crate::extended_json::fault::JsonFault;
use crate::{Document, Value, Values};
use qe_json_forms::{binary, date, int, long, object_id};
use serde_json::{Map, Value as Json};
use std::alloc::Global;

#[cycle(print)]
fn value_json(alloc: Global, value: &Value) -> Result<Json, JsonFault>
    ensures exact { Answers view json_refusal result (json_step (opened json_of value.now)) }
    ensures typed { OnOk result (typed_step (parts_typed value.now) ≡ true) }
{
    match value {
        Value::Double(_) | Value::Timestamp(_) | Value::Decimal(_) => Err(JsonFault::Unprintable),
        Value::Str(text) => Ok(Json::String(String::from_str(alloc, text.as_str())?)),
        Value::Doc(document) => document_json(alloc, document),
        Value::Array(items) => array_json(alloc, items),
        Value::Binary { subtype, bytes } => Ok(binary(alloc, *subtype, bytes.slice())?),
        Value::ObjectId(id) => Ok(object_id(alloc, id)?),
        Value::Bool(b) => Ok(Json::Bool(*b)),
        Value::Date(millis) => Ok(date(alloc, *millis)?),
        Value::Null => Ok(Json::Null),
        Value::Int32(n) => Ok(int(*n)),
        Value::Int64(n) => Ok(long(alloc, *n)?),
    }
}

#[cycle(print)]
fn array_json(alloc: Global, items: &Values) -> Result<Json, JsonFault>
    ensures exact { Answers view json_refusal result (json_array (map json_of items.now)) }
    ensures typed { OnOk result (items_typed items.now ≡ true) }
{
    let mut values = Vec::new(alloc);
    for item in items.slice() {
        values.push(value_json(alloc, item)?)?;
    }
    Ok(Json::Array(values))
}

#[cycle(print)]
fn document_json(alloc: Global, document: &Document) -> Result<Json, JsonFault>
    ensures exact { Answers view json_refusal result (json_object (map json_field document.now)) }
    ensures typed { OnOk result (fields_typed document.now ≡ true) }
{
    let mut members = Map::new(alloc);
    for i in 0..document.len() {
        let name = document.name(i);
        let json = value_json(alloc, document.value(i))?;
        serde_json::put(&mut members, alloc, name, json)?;
    }
    Ok(Json::Object(members))
}

/// The JSON of a value in the forms of MongoDB Extended JSON v2. It is `Unprintable` where a double, a decimal or a
/// timestamp stands in the value.
pub fn to_json(alloc: Global, value: &Value) -> Result<Json, JsonFault>
    ensures exact { Answers view json_refusal result (json_of (plain value.now)) }
    // So `to_string` has an exact text of it.
    ensures text { IfOk result (λ json. has_float (view json) ≡ false) }
    // What was printed is read as the value, where names rise, none is a form's alone, and 100 levels are enough.
    ensures again { IfOk result (λ json. ordered (plain value.now) ≡ true → levels (plain value.now) ≤ most_levels
        → value_of_json (view json) ≡ Ok (plain value.now)) }
{
    value_json(alloc, value)
}
