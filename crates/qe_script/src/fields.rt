//! The header's field objects and keys.

ghost use Rattle.std.specs.Prelude.{◌≡◌, map, option_map, IfOk};
ghost use Rattle.std.specs.Option.{option_copied};
ghost use Rattle.std.specs.Result.{result_ok};
ghost use Rattle.serde_json.specs.View.{view, members_view};
ghost use Rattle.qe_base.specs.Answers.{Answers};
ghost use Rattle.qe_value.specs.Views.{plain};
ghost use Rattle.qe_bson.specs.JsonReading.{value_of_json};
ghost use Rattle.qe_schema.specs.Judgements.{ahead, gather, Leaves};
ghost use Rattle.qe_raw.specs.Faults.{line_refusal};
ghost use Rattle.qe_script.specs.Fields as fields;

use hex::FromHex;
use qe_base::{Duplicate, KeyList, NoMemory, Text};
use qe_bson::{Document, JsonFault, Value, Values, from_json};
use qe_field::{elements_in, items_in, text_in};
use qe_raw::{LineFault, Object, ScriptKind, needed};
use serde_json::Value as Json;
use std::alloc::Global;

// Whether a field object has no other name than `path`.
fn is_bare(elements: &Document) -> bool
    ensures { result ≡ fields.is_bare elements.now }
{
    for element in elements.slice() {
        if element.0.as_str() != "path" {
            return false;
        }
    }
    true
}

fn key_from(text: &str) -> Option<[u8; 96]>
    ensures { result ≡ fields.key_from text.now }
{
    <[u8; 96] as FromHex>::from_hex(text).ok()
}

fn key_text(value: Option<&Value>) -> Option<[u8; 96]>
    ensures { result ≡ fields.key_text (option_map plain (option_copied value.entry)) }
{
    key_from(text_in(value?)?)
}

// Adds the key of a field object, where it has one.
fn add_key(alloc: Global, value: &Value, keys: &mut KeyList) -> Result<(), LineFault>
    ensures { Leaves line_refusal result keys.new (ahead keys.old (fields.key_of (plain value.now))) }
{
    let Some(elements) = elements_in(value) else {
        return Err(LineFault::Kind(ScriptKind::BadValue(Text::of(alloc, "fields")?)));
    };
    if is_bare(elements) {
        return Ok(());
    }
    let Some(key) = key_text(elements.get("key")) else {
        return Err(LineFault::Kind(ScriptKind::BadValue(Text::of(alloc, "fields")?)));
    };
    keys.push(key)?;
    Ok(())
}

// A field object without its key.
#[tactic(auto, unfolding(crate::specs::Fields::without_key))]
fn without_key(alloc: Global, elements: &Document) -> Result<Document, NoMemory>
    ensures { IfOk result (λ document. document ≡ fields.without_key elements.now) }
{
    let mut kept = Vec::with_capacity(alloc, elements.len())?;
    for (name, value) in elements.slice() {
        if name.as_str() != "key" {
            let name = name.copy()?;
            let value = value.copy()?;
            kept.push((name, value))?;
        }
    }
    Ok(Document::from_fields(kept))
}

// Adds a field object without its key.
fn add_object(alloc: Global, value: &Value, objects: &mut Values) -> Result<(), LineFault>
    ensures { Leaves line_refusal result objects.new (ahead objects.old (fields.object_of (plain value.now))) }
{
    let Some(elements) = elements_in(value) else {
        return Err(LineFault::Kind(ScriptKind::BadValue(Text::of(alloc, "fields")?)));
    };
    let document = without_key(alloc, elements)?;
    objects.push(Value::Doc(document))?;
    Ok(())
}

fn objects_of(alloc: Global, values: &[Value]) -> Result<Values, LineFault>
    ensures { Answers (λ it. it) line_refusal result (gather fields.object_of (map plain values.now)) }
{
    let mut objects = Values::new(alloc);
    for value in values {
        add_object(alloc, value, &mut objects)?;
    }
    Ok(objects)
}

fn keys_of(alloc: Global, values: &[Value]) -> Result<KeyList, LineFault>
    ensures { Answers (λ it. it) line_refusal result (gather fields.key_of (map plain values.now)) }
{
    let mut keys = KeyList::new(alloc);
    for value in values {
        add_key(alloc, value, &mut keys)?;
    }
    Ok(keys)
}

// The document with the one name `fields`.
fn document_with(alloc: Global, objects: Values) -> Result<Document, NoMemory>
    ensures { IfOk result (λ document. document ≡ fields.document_with objects) }
{
    let mut one = Vec::new(alloc);
    let name = Text::of(alloc, "fields")?;
    one.push((name, Value::Array(objects)))?;
    Ok(Document::from_fields(one))
}

fn fields_from(alloc: Global, values: &[Value]) -> Result<(Document, KeyList), LineFault>
    ensures { Answers (λ it. it) line_refusal result (fields.fields_from (map plain values.now)) }
{
    let objects = objects_of(alloc, values)?;
    let keys = keys_of(alloc, values)?;
    let document = document_with(alloc, objects)?;
    Ok((document, keys))
}

// The value that Extended JSON gives, if it gives one.
fn value_at(alloc: Global, json: &Json) -> Result<Option<Value>, NoMemory>
    ensures { IfOk result (λ value. option_map plain value ≡ result_ok (value_of_json (view json.now))) }
{
    match from_json(alloc, json) {
        Ok(value) => Ok(Some(value)),
        Err(JsonFault::NoMemory) => Err(NoMemory),
        Err(_) => Ok(None),
    }
}

/// The schema's document of a header, and the keys beside it.
pub(crate) fn fields_in(alloc: Global, members: &Object) -> Result<(Document, KeyList), LineFault>
    ensures { Answers (λ it. it) line_refusal result (fields.fields_in (members_view members.now.entries)) }
{
    let json = needed(alloc, members, "fields")?;
    if let Some(value) = value_at(alloc, json)?
        && let Some(values) = items_in(&value)
    {
        return fields_from(alloc, values.slice());
    }
    Err(LineFault::Kind(ScriptKind::BadValue(Text::of(alloc, "fields")?)))
}
