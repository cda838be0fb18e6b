//! Insert payloads that are written.

ghost use Rattle.std.specs.Prelude.{◌≡◌, ◌≤◌, ◌≤ℤ◌, ◌++◌, pos, codes, length, false, IfOk, OnOk};
ghost use Rattle.qe_base.specs.Answers.{Answers};
ghost use Rattle.qe_document.specs.Faults.{encode_refusal};
ghost use Rattle.qe_document.specs.Names.{is_named};
ghost use Rattle.qe_document.specs.Spelling.{IsDocument};
ghost use Rattle.qe_document.specs.Writing.{written_as};
ghost use Rattle.qe_parts.specs.Carried.{extra_names, picked_one, picked};
ghost use Rattle.qe_parts.specs.Edges.{edge_elements};
ghost use Rattle.qe_insert.specs.Insert.{edges_value, needed_elements, insert_elements, written_insert, FewEdges, AreAgain, HasLongParts, HasLongTokens, IsInsert, IsInsertBlob};

use crate::insert::{FIRST, InsertPayload};
use qe_base::{Bytes, NoMemory, bytes_of};
use qe_document::{Document, EncodeFault, Value};
use qe_parts::{
    EdgeList, EdgeTokens, Entry, GENERIC, UUID, array_of, blob_of, carry_all, put, put_binary,
};
use std::alloc::Global;

/// The blob of a payload, its elements in the order of the type's fields. `read_insert` reads the payload again.
///
/// `v` has 80 bytes or more, `k` is 0 or more, `g` has 1 to 65 edges, and `extra` has only the names `sp`, `pn`, `tf`,
/// `mn` and `mx`, in this order. It is refused as `encode` refuses the payload's document.
#[tactic(auto, unfolding(crate::specs::Insert::written_insert))]
pub fn write_insert(alloc: Global, payload: &InsertPayload) -> Result<Bytes, EncodeFault>
    requires value { 80 ≤ length payload.now.v }
    requires factor { pos 0 ≤ℤ payload.now.k }
    requires edges { FewEdges payload.now.g }
    requires extra { payload.now.extra ≡ picked extra_names payload.now.extra }
    // The payload's blob, or the first refusal of its document.
    ensures exact { Answers (λ blob. blob) encode_refusal result (written_as (insert_elements payload.now) (written_insert payload.now)) }
    ensures again { IfOk result (λ blob. IsInsertBlob payload.now blob) }
    ensures fits { IfOk result (λ _. IsDocument (insert_elements payload.now)) }
{
    match document_of(alloc, payload) {
        Ok(document) => blob_of(alloc, FIRST, &document),
        Err(NoMemory) => Err(EncodeFault::NoMemory),
    }
}

fn document_of(alloc: Global, payload: &InsertPayload) -> Result<Document, NoMemory>
    requires value { 80 ≤ length payload.now.v }
    requires factor { pos 0 ≤ℤ payload.now.k }
    requires edges { FewEdges payload.now.g }
    requires extra { payload.now.extra ≡ picked extra_names payload.now.extra }
    ensures elements { IfOk result (λ document. document ≡ insert_elements payload.now) }
    ensures is { IfOk result (λ document. IsInsert payload.now document) }
{
    let mut document = needed_of(alloc, payload)?;
    put_edges(alloc, &mut document, &payload.g)?;
    carry_all(alloc, &payload.extra, &mut document)?;
    Ok(document)
}

fn needed_of(alloc: Global, payload: &InsertPayload) -> Result<Document, NoMemory>
    ensures elements { IfOk result (λ document. document ≡ needed_elements payload.now) }
    ensures long { IfOk result (λ _. HasLongParts payload.now) }
{
    let mut document = Document::new(alloc);
    put_binary(alloc, &mut document, "d", GENERIC, bytes_of(&payload.d))?;
    put_binary(alloc, &mut document, "s", GENERIC, bytes_of(&payload.s))?;
    put_binary(alloc, &mut document, "p", GENERIC, payload.p.bytes())?;
    put_binary(alloc, &mut document, "u", UUID, bytes_of(&payload.u))?;
    put(alloc, &mut document, "t", Value::Int32(payload.t))?;
    put_binary(alloc, &mut document, "v", GENERIC, payload.v.slice())?;
    put_binary(alloc, &mut document, "e", GENERIC, bytes_of(&payload.e))?;
    put_binary(alloc, &mut document, "l", GENERIC, bytes_of(&payload.l))?;
    put(alloc, &mut document, "k", Value::Int64(payload.k))?;
    Ok(document)
}

fn put_edges(
    alloc: Global,
    document: &mut Document,
    edges: &Option<EdgeList>,
) -> Result<(), NoMemory>
    requires new { is_named (codes "g") document.old ≡ false }
    ensures elements { OnOk result (document.new ≡ document.old ++ picked_one (codes "g") (edges_value edges.now)) }
    ensures again { OnOk result (AreAgain edges.now) }
{
    match edges {
        None => Ok(()),
        Some(list) => {
            let array = array_of(alloc, &EdgeEntry, list.slice())?;
            put(alloc, document, "g", array)
        }
    }
}

// An edge in an array.
#[derive(Clone, Copy)]
struct EdgeEntry;

impl Entry for EdgeEntry {
    ghost use Rattle.std.specs.Prelude.{◌≡◌, Ok};
    ghost use Rattle.qe_parts.specs.Edges.{edge_elements};
    ghost use Rattle.qe_insert.specs.Insert.{edge_of};

    type Of = EdgeTokens;

    ghost elements = { edge_elements };

    ghost again = { λ edge. edge_of (edge_elements edge) ≡ Ok edge };

    fn write(&self, alloc: Global, of: &EdgeTokens) -> Result<Document, NoMemory> {
        edge_document(alloc, of)
    }
}

fn edge_document(alloc: Global, edge: &EdgeTokens) -> Result<Document, NoMemory>
    ensures elements { IfOk result (λ document. document ≡ edge_elements edge.now) }
    ensures long { IfOk result (λ _. HasLongTokens edge.now) }
{
    let mut document = Document::new(alloc);
    put_binary(alloc, &mut document, "d", GENERIC, bytes_of(&edge.d))?;
    put_binary(alloc, &mut document, "s", GENERIC, bytes_of(&edge.s))?;
    put_binary(alloc, &mut document, "l", GENERIC, bytes_of(&edge.l))?;
    put_binary(alloc, &mut document, "p", GENERIC, edge.p.bytes())?;
    Ok(document)
}
