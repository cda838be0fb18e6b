//! The forms: objects whose only name says which value they stand for.

ghost use Rattle.std.specs.Prelude.{◌≡◌, option_map, IfOk};
ghost use Rattle.std.specs.Result.{result_ok};
ghost use Rattle.base64.specs.Engines.{standard};
ghost use Rattle.base64.specs.GeneralPurpose.{decode_of};
ghost use Rattle.serde_json.specs.View.{view, members_view};
ghost use Rattle.qe_value.specs.Views.{plain};
ghost use Rattle.qe_json_forms.specs.Forms.{form_named, only_member, member_seen, form_of, form_seen};
ghost use Rattle.qe_json_forms.specs.Forms.{whole_in, whole_at, bytes_at, date_at, has_members, member_text, subtype_at, binary_at};
ghost use Rattle.qe_json_forms.specs.Forms.{value_in};

use base64::DecodeAllocError;
use base64::engine::general_purpose::STANDARD;
use hex::FromHex;
use itoa::Buffer;
use qe_base::{Bytes, NoMemory};
use qe_value::Value;
use serde_json::{Map, Value as Json};
use std::alloc::Global;

/// What an object with one name can stand for.
#[derive(Clone, Copy, Debug, PartialEq, Eq)]
pub enum Form {
    /// `{"$numberInt":"5"}`
    Int,
    /// `{"$numberLong":"5"}`
    Long,
    /// `{"$oid":"24 hex digits"}`
    ObjectId,
    /// `{"$binary":{"base64":"TEXT","subType":"04"}}`
    Binary,
    /// `{"$date":{"$numberLong":"0"}}`
    Date,
}

impl Form {
    /// The form of a name.
    pub fn named(name: &str) -> Option<Form>
        ensures { result ≡ form_named name.now }
    {
        match name {
            "$numberInt" => Some(Form::Int),
            "$numberLong" => Some(Form::Long),
            "$oid" => Some(Form::ObjectId),
            "$binary" => Some(Form::Binary),
            "$date" => Some(Form::Date),
            _ => None,
        }
    }

    /// The form of an object and what stands in it, where its only name is a form's.
    pub fn of(members: &Map<String, Json>) -> Option<(Form, &Json)>
        ensures { option_map form_seen result ≡ form_of (members_view members.now.entries) }
    {
        let (name, inner) = only_member(members)?;
        let form = Form::named(name)?;
        Some((form, inner))
    }
}

// The name and the value of an object that has one.
#[tactic(auto, using(crate::proofs::FormLemmas::only_of_others))]
fn only_member(members: &Map<String, Json>) -> Option<(&str, &Json)>
    ensures { option_map member_seen result ≡ only_member (members_view members.now.entries) }
{
    if members.len() != 1 {
        return None;
    }
    let (name, member) = members.first_key_value()?;
    Some((name.as_str(), member))
}

// The integer that is written as the text: `parse` also reads a plus, leading zeros and `-0`.
fn int_of(text: &str) -> Option<i32>
    ensures { result ≡ whole_in 31 text.now }
{
    let n = text.parse::<i32>().ok()?;
    if Buffer::new().format(n) == text {
        Some(n)
    } else {
        None
    }
}

fn long_of(text: &str) -> Option<i64>
    ensures { result ≡ whole_in 63 text.now }
{
    let n = text.parse::<i64>().ok()?;
    if Buffer::new().format(n) == text {
        Some(n)
    } else {
        None
    }
}

fn int_at(json: &Json) -> Option<i32>
    ensures { result ≡ whole_at 31 (view json.now) }
{
    int_of(json.as_str()?)
}

fn long_at(json: &Json) -> Option<i64>
    ensures { result ≡ whole_at 63 (view json.now) }
{
    long_of(json.as_str()?)
}

fn bytes_at<const N: usize>(json: &Json) -> Option<[u8; N]>
    ensures { result ≡ bytes_at N (view json.now) }
{
    <[u8; N] as FromHex>::from_hex(json.as_str()?).ok()
}

fn date_at(json: &Json) -> Option<i64>
    ensures { result ≡ date_at (view json.now) }
{
    match Form::of(json.as_object()?)? {
        (Form::Long, millis) => long_at(millis),
        _ => None,
    }
}

// The bytes that the text is the base64 of, as the standard engine writes it.
fn base64_of(alloc: Global, text: &str) -> Result<Option<Bytes>, NoMemory>
    ensures { IfOk result (λ bytes. bytes ≡ result_ok (decode_of standard text.now)) }
{
    match STANDARD.decode(alloc, text.as_bytes()) {
        Ok(bytes) => Ok(Some(Bytes::from_vec(alloc, bytes))),
        Err(DecodeAllocError::OutOfMemory) => Err(NoMemory),
        Err(_) => Ok(None),
    }
}

// The object has so many names.
fn has_members(json: &Json, count: usize) -> bool
    ensures { result ≡ has_members count (view json.now) }
{
    match json.as_object() {
        Some(members) => members.len() == count,
        None => false,
    }
}

fn subtype_at(json: &Json) -> Option<u8>
    ensures { result ≡ subtype_at (view json.now) }
{
    let [subtype] = bytes_at::<1>(json.get("subType")?)?;
    Some(subtype)
}

fn member_text<'a>(json: &'a Json, name: &str) -> Option<&'a str>
    ensures { option_map (λ t. t.now) result ≡ member_text name.now (view json.now) }
{
    json.get(name)?.as_str()
}

// The subtype and the bytes of a binary.
#[tactic(auto, unfolding(crate::specs::Forms::binary_at))]
fn binary_at(alloc: Global, json: &Json) -> Result<Option<(u8, Bytes)>, NoMemory>
    ensures { IfOk result (λ binary. binary ≡ binary_at (view json.now)) }
{
    let Some(subtype) = subtype_at(json) else {
        return Ok(None);
    };
    let Some(text) = member_text(json, "base64") else {
        return Ok(None);
    };
    let Some(bytes) = base64_of(alloc, text)? else {
        return Ok(None);
    };
    if !has_members(json, 2) {
        return Ok(None);
    }
    Ok(Some((subtype, bytes)))
}

/// The value of a form, if it has this content.
pub fn value_in(alloc: Global, form: Form, json: &Json) -> Result<Option<Value>, NoMemory>
    ensures { IfOk result (λ value. option_map plain value ≡ value_in form (view json.now)) }
{
    match form {
        Form::Int => Ok(int_at(json).map(Value::Int32)),
        Form::Long => Ok(long_at(json).map(Value::Int64)),
        Form::ObjectId => Ok(bytes_at::<12>(json).map(Value::ObjectId)),
        Form::Binary => {
            let binary = binary_at(alloc, json)?;
            Ok(binary.map(|(subtype, bytes)| Value::Binary { subtype, bytes }))
        }
        Form::Date => Ok(date_at(json).map(Value::Date)),
    }
}
