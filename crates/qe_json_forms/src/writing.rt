//! JSON of values that hold no other.

ghost use Rattle.std.specs.Prelude.{◌≡◌, true, string_bytes, IfOk, OnOk};
ghost use Rattle.base64.specs.Engines.{standard};
ghost use Rattle.base64.specs.GeneralPurpose.{encode_of};
ghost use Rattle.hex.specs.Hex.{encode_lower};
ghost use Rattle.serde_json.specs.Data.{number};
ghost use Rattle.serde_json.specs.Find.{of_integer};
ghost use Rattle.serde_json.specs.View.{view};
ghost use Rattle.qe_value.specs.declared.value.Plain.TheOpen.{Plain-F};
ghost use Rattle.qe_base.specs.Bytes.{are_bytes};
ghost use Rattle.qe_json_forms.specs.Forms.{fits};
ghost use Rattle.qe_json_forms.specs.Ranges.{typed_step};
ghost use Rattle.qe_json_forms.specs.Writing.{long, date, object_id, binary, binary_content};

use base64::engine::general_purpose::STANDARD;
use itoa::Buffer;
use serde_json::{Value as Json, json};
use std::alloc::{AllocError, Global};

/// The number of an int32.
pub fn int(n: i32) -> Json
    ensures value { view result ≡ number (of_integer n) }
    ensures range { fits 31 n ≡ true }
{
    Json::from(n)
}

/// The form of an int64.
pub fn long(alloc: Global, n: i64) -> Result<Json, AllocError>
    ensures value { IfOk result (λ json. view json ≡ long n) }
    ensures range { fits 63 n ≡ true }
{
    let mut buffer = Buffer::new();
    json!(in alloc; {"$numberLong": buffer.format(n)})
}

/// The form of a date, in milliseconds since 1970.
pub fn date(alloc: Global, millis: i64) -> Result<Json, AllocError>
    ensures value { IfOk result (λ json. view json ≡ date millis) }
    ensures range { fits 63 millis ≡ true }
{
    let millis = long(alloc, millis)?;
    json!(in alloc; {"$date": millis})
}

fn hex_text(alloc: Global, bytes: &[u8]) -> Result<String, AllocError>
    ensures text { IfOk result (λ text. string_bytes text ≡ encode_lower bytes.now) }
    ensures range { are_bytes bytes.now ≡ true }
{
    hex::encode(alloc, bytes)
}

fn base64_text(alloc: Global, bytes: &[u8]) -> Result<String, AllocError>
    ensures text { IfOk result (λ text. string_bytes text ≡ encode_of standard bytes.now) }
    ensures range { are_bytes bytes.now ≡ true }
{
    STANDARD.encode(alloc, bytes)
}

/// The form of an ObjectId.
pub fn object_id(alloc: Global, id: &[u8; 12]) -> Result<Json, AllocError>
    ensures value { IfOk result (λ json. view json ≡ object_id id.now) }
    ensures range { OnOk result (typed_step (Plain-F.ObjectId id.now) ≡ true) }
{
    let digits = hex_text(alloc, id)?;
    json!(in alloc; {"$oid": digits})
}

// What stands under the name of the form.
fn binary_content(alloc: Global, subtype: u8, bytes: &[u8]) -> Result<Json, AllocError>
    ensures value { IfOk result (λ json. view json ≡ binary_content subtype bytes.now) }
    ensures range { OnOk result (typed_step (Plain-F.Binary subtype bytes.now) ≡ true) }
{
    let text = base64_text(alloc, bytes)?;
    let digits = hex_text(alloc, &[subtype])?;
    json!(in alloc; {"base64": text, "subType": digits})
}

/// The form of a binary.
pub fn binary(alloc: Global, subtype: u8, bytes: &[u8]) -> Result<Json, AllocError>
    ensures value { IfOk result (λ json. view json ≡ binary subtype bytes.now) }
    ensures range { OnOk result (typed_step (Plain-F.Binary subtype bytes.now) ≡ true) }
{
    let content = binary_content(alloc, subtype, bytes)?;
    json!(in alloc; {"$binary": content})
}
