//! Payloads that stand under an encrypted field.

ghost use Rattle.std.specs.Prelude.{◌≡◌, nat_abs};
ghost use Rattle.qe_document.specs.Views.{plain};
ghost use Rattle.qe_layout.specs.Refusal.{Reads};
ghost use Rattle.qe_command_parts.specs.Payloads as payloads;

use qe_base::{Bytes, bytes_of};
use qe_document::Value;
use qe_layout::{Kind, Malformed, refuse, under};
use qe_payload::{FindEqual, FindRange, InsertPayload, read_equal, read_insert, read_range};
use std::alloc::Global;

/// The subtype of encrypted values.
const ENCRYPTED: u8 = 6;

/// What a field wants of a payload that sets it.
#[derive(Clone, Copy)]
pub(crate) struct Wanted {
    /// Whether it has edges.
    pub range: bool,
    /// The id of the field's key.
    pub key_id: [u8; 16],
    /// The BSON type of the field's values.
    pub kind: u8,
    /// The field's greatest contention.
    pub greatest: u64,
}

fn begins_otherwise(kind: u8, blob: &[u8]) -> bool
    ensures { result ≡ payloads.begins_otherwise kind blob.now }
{
    match blob.first() {
        Some(first) => *first != kind,
        None => false,
    }
}

// The bytes of a blob that may be of a kind.
fn blob(alloc: Global, name: &str, value: Value, kind: u8) -> Result<Bytes, Malformed>
    ensures { Reads result (payloads.blob_reads kind name.now (plain value)) }
{
    match value {
        Value::Binary { subtype, bytes } => {
            if subtype != ENCRYPTED {
                refuse(alloc, name, Kind::WrongType)
            } else if begins_otherwise(kind, bytes.slice()) {
                refuse(alloc, name, Kind::KindDiffers)
            } else {
                Ok(bytes)
            }
        }
        _ => refuse(alloc, name, Kind::WrongType),
    }
}

fn factor_within<P: Drop>(
    alloc: Global,
    name: &str,
    greatest: u64,
    factor: u64,
    payload: P,
) -> Result<P, Malformed>
    ensures { Reads result (payloads.factor_within greatest factor name.now payload) }
{
    if greatest < factor {
        return refuse(
            alloc,
            name,
            Kind::ContentionAbove {
                got: factor,
                limit: greatest,
            },
        );
    }
    Ok(payload)
}

fn has_kind(wanted: &Wanted, payload: &InsertPayload) -> bool
    ensures { result ≡ payloads.has_kind wanted.now.range wanted.now.kind payload.now }
{
    if wanted.range {
        payload.g.is_some() && payload.t == i32::from(wanted.kind)
    } else {
        payload.g.is_none() && payload.t == i32::from(wanted.kind)
    }
}

fn has_key(wanted: &Wanted, payload: &InsertPayload) -> bool
    ensures { result ≡ payloads.has_key wanted.now.key_id payload.now }
{
    let user = payload.v.slice();
    let end = if user.len() < 16 { user.len() } else { 16 };
    let front = &user[..end];
    payload.u == wanted.key_id && front == bytes_of(&wanted.key_id)
}

fn of_field(
    alloc: Global,
    name: &str,
    wanted: &Wanted,
    payload: InsertPayload,
) -> Result<InsertPayload, Malformed>
    ensures { Reads result (payloads.of_field wanted.now.range wanted.now.key_id wanted.now.kind wanted.now.greatest name.now payload) }
{
    if !has_kind(wanted, &payload) {
        return refuse(alloc, name, Kind::KindDiffers);
    }
    if !has_key(wanted, &payload) {
        return refuse(alloc, name, Kind::KeyDiffers);
    }
    let factor = payload.k.unsigned_abs();
    factor_within(alloc, name, wanted.greatest, factor, payload)
}

/// A payload that sets a field.
pub(crate) fn insert_under(
    alloc: Global,
    name: &str,
    value: Value,
    wanted: &Wanted,
) -> Result<InsertPayload, Malformed>
    ensures { Reads result (payloads.insert_reads_of wanted.now.range wanted.now.key_id wanted.now.kind wanted.now.greatest name.now (plain value)) }
{
    let bytes = blob(alloc, name, value, 11)?;
    let payload = under(alloc, name, read_insert(alloc, bytes.slice()))?;
    of_field(alloc, name, wanted, payload)
}

/// A payload that finds a value in an equality field.
pub(crate) fn equal_under(
    alloc: Global,
    name: &str,
    value: Value,
    greatest: u64,
) -> Result<FindEqual, Malformed>
    ensures { Reads result (payloads.equal_reads_of greatest name.now (plain value)) }
{
    let bytes = blob(alloc, name, value, 12)?;
    let payload = under(alloc, name, read_equal(alloc, bytes.slice()))?;
    let factor = payload.cm.unsigned_abs();
    factor_within(alloc, name, greatest, factor, payload)
}

/// A payload that finds the values of an interval in a range field.
pub(crate) fn range_under(
    alloc: Global,
    name: &str,
    value: Value,
    greatest: u64,
) -> Result<FindRange, Malformed>
    ensures { Reads result (payloads.range_reads_of greatest name.now (plain value)) }
{
    let bytes = blob(alloc, name, value, 13)?;
    let payload = under(alloc, name, read_range(alloc, bytes.slice()))?;
    let factor = payload.cm.unsigned_abs();
    factor_within(alloc, name, greatest, factor, payload)
}
