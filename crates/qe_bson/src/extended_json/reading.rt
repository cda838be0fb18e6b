//! Values from JSON.

ghost use Rattle.serde_json.specs.View.{view, items_view, members_view};
ghost use Rattle.qe_document.specs.Views.{plain};
ghost use Rattle.qe_base.specs.Answers.{Answers};
ghost use Rattle.qe_bson.specs.JsonFaults.{json_refusal};
ghost use Rattle.qe_bson.specs.JsonReading.{value_at, array_value, object_value, items_at, fields_at, value_of_json};

use crate::extended_json::fault::JsonFault;
use crate::extended_json::forms::{form_value, number_of};
use crate::{Document, MOST_LEVELS, Value, Values};
use qe_base::Text;
use qe_json_forms::Form;
use serde_json::{Map, Value as Json};
use std::alloc::Global;

// A value, where so many levels are left for objects and arrays.
#[cycle(read)]
#[tactic(auto, unfolding(crate::specs::JsonReading::value_at))]
fn value_of(alloc: Global, json: &Json, room: u32) -> Result<Value, JsonFault>
    ensures { Answers plain json_refusal result (value_at room (view json.now)) }
{
    match json {
        Json::Null => Ok(Value::Null),
        Json::Bool(b) => Ok(Value::Bool(*b)),
        Json::Number(number) => number_of(number),
        Json::String(text) => Ok(Value::Str(Text::of(alloc, text.as_str())?)),
        Json::Array(items) => array_of(alloc, items, room),
        Json::Object(members) => object_of(alloc, members, room),
    }
}

#[cycle(read)]
#[tactic(auto, unfolding(crate::specs::JsonReading::value_at))]
fn array_of(alloc: Global, items: &Vec<Json>, room: u32) -> Result<Value, JsonFault>
    ensures { Answers plain json_refusal result (array_value room (items_view items.now.items)) }
{
    if room == 0 {
        return Err(JsonFault::TooDeep);
    }
    let values = items_of(alloc, items, room - 1)?;
    Ok(Value::Array(values))
}

// The value of a form, or a document.
#[cycle(read)]
#[tactic(auto, unfolding(crate::specs::JsonReading::value_at))]
fn object_of(alloc: Global, members: &Map<String, Json>, room: u32) -> Result<Value, JsonFault>
    ensures { Answers plain json_refusal result (object_value room (members_view members.now.entries)) }
{
    if room == 0 {
        return Err(JsonFault::TooDeep);
    }
    if let Some((form, inner)) = Form::of(members) {
        return form_value(alloc, form, inner, room - 1);
    }
    let document = fields_of(alloc, members, room - 1)?;
    Ok(Value::Doc(document))
}

#[cycle(read)]
fn items_of(alloc: Global, items: &Vec<Json>, room: u32) -> Result<Values, JsonFault>
    ensures { Answers (λ vs. vs) json_refusal result (items_at room (items_view items.now.items)) }
{
    let mut values = Values::new(alloc);
    for item in items {
        values.push(value_of(alloc, item, room)?)?;
    }
    Ok(values)
}

#[cycle(read)]
fn fields_of(alloc: Global, members: &Map<String, Json>, room: u32) -> Result<Document, JsonFault>
    ensures { Answers (λ fs. fs) json_refusal result (fields_at room (members_view members.now.entries)) }
{
    let mut fields = Vec::new(alloc);
    for (name, member) in members.iter() {
        let value = value_of(alloc, member, room)?;
        fields.push((Text::of(alloc, name.as_str())?, value))?;
    }
    Ok(Document::from_fields(fields))
}

/// The value of JSON in the forms of MongoDB Extended JSON v2, or the first fault that is met: at an object or an
/// array `TooDeep`, then `BadForm`, then its parts in order.
pub fn from_json(alloc: Global, json: &Json) -> Result<Value, JsonFault>
    ensures exact { Answers plain json_refusal result (value_of_json (view json.now)) }
{
    value_of(alloc, json, MOST_LEVELS)
}
