//! An encrypted value: its items, and the bytes that are stored in its place.

ghost use Rattle.std.specs.Prelude.{◌≡◌, ◌≤◌, ◌+◌, ◌*◌, [], ◌∷◌, length, drop, IfOk, nat_abs};
ghost use Rattle.qe_seal.specs.Enciphered.{enciphered};
ghost use Rattle.qe_command.specs.Items.{own_tokens, items_of};
ghost use Rattle.qe_protocol.specs.Indexing.{nonce_at, indexed_value};
ghost use Rattle.qe_indexed.specs.Spelling.{written};
ghost use Rattle.qe_indexing.specs.Plans.{index_in};
ghost use Rattle.qe_indexing.specs.Items.{ItemsPlanned};
ghost use Rattle.qe_indexing.specs.Cells.{IsStorable, ValuePlanned};

use crate::items::{index_items, nonces_from};
use crate::plan::{Plan, Standing};
use qe_aes::ctr;
use qe_base::{Bytes, NoMemory};
use qe_indexed::{Blocks, IndexedValue};
use qe_payload::{EdgeTokens, InsertPayload};
use std::alloc::Global;

/// How many items a payload has.
pub(crate) fn item_count(payload: &InsertPayload) -> usize
    ensures { result ≡ length (items_of payload.now) }
{
    match &payload.g {
        Some(edges) => edges.len(),
        None => 1,
    }
}

/// The value's own tokens.
fn own_tokens(payload: &InsertPayload) -> EdgeTokens
    ensures { result ≡ own_tokens payload.now }
{
    EdgeTokens {
        d: payload.d,
        s: payload.s,
        l: payload.l,
        p: payload.p,
    }
}

/// Plans the items of a payload. Each takes two nonces.
fn index_payload(
    standing: &Standing,
    field: u32,
    payload: &InsertPayload,
    nonces: &[[u8; 16]],
    plan: &mut Plan,
) -> Result<Blocks, NoMemory>
    requires { 2 * length (items_of payload.now) ≤ length nonces.now }
    ensures { IfOk result (ItemsPlanned (index_in standing.now) field (nat_abs payload.now.k) (items_of payload.now) nonces.now (drop (2 * length (items_of payload.now)) nonces.now) plan.old plan.new) }
{
    let factor = payload.k.unsigned_abs();
    match &payload.g {
        Some(edges) => index_items(standing, field, factor, edges.slice(), nonces, plan),
        None => index_items(
            standing,
            field,
            factor,
            &[own_tokens(payload)],
            nonces,
            plan,
        ),
    }
}

/// The IV, and the counter mode of the bytes under it.
fn server_value(
    alloc: Global,
    key: &[u8; 32],
    iv: &[u8; 16],
    sent: &[u8],
) -> Result<Bytes, NoMemory>
    ensures value { IfOk result (λ value. value ≡ enciphered key.now iv.now sent.now) }
    ensures long { IfOk result (λ value. 16 ≤ length value) }
{
    let mut bytes = Vec::from_slice(alloc, sent)?;
    ctr(key, iv, bytes.as_mut_slice());
    let mut value = Bytes::from_slice(alloc, iv)?;
    value.extend(bytes.as_slice())?;
    Ok(value)
}

/// Plans an encrypted value of a field, and gives the bytes that are stored in its place. It takes one nonce, and two for
/// each of its items.
pub(crate) fn index_value(
    standing: &Standing,
    field: u32,
    payload: &InsertPayload,
    nonces: &[[u8; 16]],
    plan: &mut Plan,
) -> Result<Bytes, NoMemory>
    requires storable { IsStorable payload.now }
    requires nonces { 1 + 2 * length (items_of payload.now) ≤ length nonces.now }
    ensures { IfOk result (ValuePlanned (index_in standing.now) field payload.now nonces.now plan.old plan.new) }
{
    let blocks = index_payload(standing, field, payload, nonces_from(nonces, 1), plan)?;
    let iv = nonces[0];
    let server_value = server_value(standing.alloc, &payload.e, &iv, payload.v.slice())?;
    let value = IndexedValue {
        range: payload.g.is_some(),
        key_id: payload.u,
        value_kind: payload.t.unsigned_abs() as u8,
        server_value,
        blocks,
    };
    value.write(standing.alloc)
}
