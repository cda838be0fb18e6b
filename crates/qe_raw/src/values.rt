//! The values of a command's line.

ghost use Rattle.std.specs.Prelude.{◌≡◌, IfOk, option_map};
ghost use Rattle.serde_json.specs.Find.{get_member};
ghost use Rattle.serde_json.specs.View.{view, members_view};
ghost use Rattle.qe_base.specs.Answers.{Answers};
ghost use Rattle.qe_value.specs.Views.{plain};
ghost use Rattle.qe_schema.specs.Judgements.{some_or};
ghost use Rattle.qe_raw.specs.Faults.{line_refusal};
ghost use Rattle.qe_raw.specs.Values as values;
ghost use Rattle.qe_raw.specs.declared.fault.ScriptKind.TheVariants as k;

use crate::fault::{LineFault, ScriptKind};
use crate::names::member;
use crate::object::Object;
use qe_base::{JobKind, NoMemory, Text};
use qe_bson::{Document, JsonFault, Value, from_json};
use serde_json::Value as Json;
use std::alloc::Global;

/// The greatest number that an int64 holds.
const MOST_WHOLE: u64 = 9_223_372_036_854_775_807;

/// The value of a name, or `Missing`.
pub fn needed<'a>(alloc: Global, members: &'a Object, name: &str) -> Result<&'a Json, LineFault>
    ensures { Answers (λ value. view value.now) line_refusal result (values.needed name.now (members_view members.now.entries)) }
{
    match member(members, name) {
        Some(value) => Ok(value),
        None => Err(LineFault::Kind(ScriptKind::Missing(Text::of(alloc, name)?))),
    }
}

/// What Extended JSON gives of a value, if it gives one.
pub fn value_if_any(alloc: Global, json: &Json) -> Result<Option<Value>, NoMemory>
    ensures { IfOk result (λ value. option_map plain value ≡ values.value_if_any (view json.now)) }
{
    match from_json(alloc, json) {
        Ok(value) => Ok(Some(value)),
        Err(JsonFault::NoMemory) => Err(NoMemory),
        Err(_) => Ok(None),
    }
}

// The document that a value is, if it is one.
fn document_of(alloc: Global, json: &Json) -> Result<Option<Document>, NoMemory>
    ensures { IfOk result (λ document. document ≡ values.document_of (view json.now)) }
{
    match value_if_any(alloc, json)? {
        Some(value) => Ok(value.into_document()),
        None => Ok(None),
    }
}

fn document_at(alloc: Global, name: &str, value: &Json) -> Result<Document, LineFault>
    ensures { Answers (λ it. it) line_refusal result (values.document_at name.now (view value.now)) }
{
    match document_of(alloc, value)? {
        Some(document) => Ok(document),
        None => Err(LineFault::Kind(ScriptKind::BadValue(Text::of(alloc, name)?))),
    }
}

/// The document of a name that has to be there.
pub(crate) fn needed_document(
    alloc: Global,
    members: &Object,
    name: &str,
) -> Result<Document, LineFault>
    ensures { Answers (λ it. it) line_refusal result (values.needed_document name.now (members_view members.now.entries)) }
{
    let value = needed(alloc, members, name)?;
    document_at(alloc, name, value)
}

/// The document of a name, if it is there.
pub fn optional_document(
    alloc: Global,
    members: &Object,
    name: &str,
) -> Result<Option<Document>, LineFault>
    ensures { Answers (λ it. it) line_refusal result (values.optional_document name.now (members_view members.now.entries)) }
{
    let Some(value) = member(members, name) else {
        return Ok(None);
    };
    let document = document_at(alloc, name, value)?;
    Ok(Some(document))
}

/// The filter of a search, without a name where none is given.
pub(crate) fn searched(alloc: Global, members: &Object) -> Result<Document, LineFault>
    ensures { Answers (λ it. it) line_refusal result (values.searched (members_view members.now.entries)) }
{
    match optional_document(alloc, members, "filter")? {
        Some(filter) => Ok(filter),
        None => Ok(Document::new(alloc)),
    }
}

// A number without a sign, a fraction and an exponent, from 0 to 2^63 - 1.
fn whole_of(value: &Json) -> Option<u64>
    ensures { result ≡ values.whole_of (view value.now) }
{
    let number = value.as_u64()?;
    if number > MOST_WHOLE {
        return None;
    }
    Some(number)
}

fn whole_at(alloc: Global, name: &str, value: &Json) -> Result<u64, LineFault>
    ensures { Answers (λ it. it) line_refusal result (values.whole_at name.now (view value.now)) }
{
    match whole_of(value) {
        Some(number) => Ok(number),
        None => Err(LineFault::Kind(ScriptKind::BadValue(Text::of(alloc, name)?))),
    }
}

/// The whole number of a name that has to be there.
pub fn needed_whole(alloc: Global, members: &Object, name: &str) -> Result<u64, LineFault>
    ensures { Answers (λ it. it) line_refusal result (values.needed_whole name.now (members_view members.now.entries)) }
{
    let value = needed(alloc, members, name)?;
    whole_at(alloc, name, value)
}

/// The limit of a step, 1 where none is given.
pub(crate) fn limit_in(alloc: Global, members: &Object) -> Result<u64, LineFault>
    ensures { Answers (λ it. it) line_refusal result (values.limit_in (members_view members.now.entries)) }
{
    match member(members, "limit") {
        None => Ok(1),
        Some(value) => whole_at(alloc, "limit", value),
    }
}

fn kind_named(name: &str) -> Option<JobKind>
    ensures { result ≡ values.kind_named name.now }
{
    if name == "compact" {
        Some(JobKind::Compact)
    } else if name == "cleanup" {
        Some(JobKind::Cleanup)
    } else {
        None
    }
}

/// What a job is to do.
pub(crate) fn kind_in(alloc: Global, members: &Object) -> Result<JobKind, LineFault>
    ensures { Answers (λ it. it) line_refusal result (values.kind_in (members_view members.now.entries)) }
{
    let value = needed(alloc, members, "kind")?;
    if let Some(name) = value.as_str()
        && let Some(kind) = kind_named(name)
    {
        return Ok(kind);
    }
    Err(LineFault::Kind(ScriptKind::BadValue(Text::of(alloc, "kind")?)))
}

/// The path of a field.
pub(crate) fn field_in(alloc: Global, members: &Object) -> Result<Text, LineFault>
    ensures { Answers (λ it. it) line_refusal result (values.field_in (members_view members.now.entries)) }
{
    let value = needed(alloc, members, "field")?;
    match value.as_str() {
        Some(path) => Ok(Text::of(alloc, path)?),
        None => Err(LineFault::Kind(ScriptKind::BadValue(Text::of(alloc, "field")?))),
    }
}
