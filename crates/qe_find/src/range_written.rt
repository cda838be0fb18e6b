//! Find payloads of ranges that are written.

ghost use Rattle.std.specs.Prelude.{◌≡◌, ◌≤◌, ◌≤ℤ◌, pos, length, Ok, IfOk};
ghost use Rattle.std.specs.List.{AllByRecursion};
ghost use Rattle.qe_base.specs.Answers.{Answers};
ghost use Rattle.qe_document.specs.Faults.{encode_refusal};
ghost use Rattle.qe_document.specs.Spelling.{IsDocument};
ghost use Rattle.qe_document.specs.Writing.{written_as};
ghost use Rattle.qe_parts.specs.Carried.{extra_names, picked};
ghost use Rattle.qe_parts.specs.Edges.{find_edge_elements};
ghost use Rattle.qe_find.specs.Range.{find_edge_of, inner_elements, head_elements, range_elements, written_range, HasLongFindTokens, IsRange, IsRangeBlob};

use crate::range::{FIRST, FIRST_OPERATOR, FindRange, SECOND_OPERATOR};
use qe_base::{Bytes, NoMemory, bytes_of};
use qe_document::{Document, EncodeFault, Value};
use qe_parts::{Entry, FindEdge, GENERIC, array_of, blob_of, carry_all, put, put_binary};
use std::alloc::Global;

/// The blob of a payload, its elements in written order. `read_range` reads the payload again.
///
/// `cm` is 0 or more, `g` has at most 4,096 edges, and `extra` has only the names `sp`, `pn`, `tf`, `mn` and `mx`, in
/// this order. It is refused as `encode` refuses the payload's document.
#[tactic(auto, unfolding(crate::specs::Range::written_range))]
pub fn write_range(alloc: Global, payload: &FindRange) -> Result<Bytes, EncodeFault>
    requires factor { pos 0 ≤ℤ payload.now.cm }
    requires edges { length payload.now.g ≤ 4096 }
    requires extra { payload.now.extra ≡ picked extra_names payload.now.extra }
    // The payload's blob, or the first refusal of its document.
    ensures exact { Answers (λ blob. blob) encode_refusal result (written_as (range_elements payload.now) (written_range payload.now)) }
    ensures again { IfOk result (λ blob. IsRangeBlob payload.now blob) }
    ensures fits { IfOk result (λ _. IsDocument (range_elements payload.now)) }
{
    match document_of(alloc, payload) {
        Ok(document) => blob_of(alloc, FIRST, &document),
        Err(NoMemory) => Err(EncodeFault::NoMemory),
    }
}

fn document_of(alloc: Global, payload: &FindRange) -> Result<Document, NoMemory>
    requires factor { pos 0 ≤ℤ payload.now.cm }
    requires edges { length payload.now.g ≤ 4096 }
    requires extra { payload.now.extra ≡ picked extra_names payload.now.extra }
    ensures elements { IfOk result (λ document. document ≡ range_elements payload.now) }
    ensures is { IfOk result (λ document. IsRange payload.now document) }
{
    let inner = inner_of(alloc, payload)?;
    let mut document = head_of(alloc, payload, inner)?;
    carry_all(alloc, &payload.extra, &mut document)?;
    Ok(document)
}

// The needed elements round the inner document.
fn head_of(alloc: Global, payload: &FindRange, inner: Document) -> Result<Document, NoMemory>
    ensures { IfOk result (λ document. document ≡ head_elements payload.now inner) }
{
    let mut document = Document::new(alloc);
    put(alloc, &mut document, "payload", Value::Doc(inner))?;
    put(
        alloc,
        &mut document,
        "payloadId",
        Value::Int32(payload.payload_id),
    )?;
    put(
        alloc,
        &mut document,
        "firstOperator",
        Value::Int32(FIRST_OPERATOR),
    )?;
    put(
        alloc,
        &mut document,
        "secondOperator",
        Value::Int32(SECOND_OPERATOR),
    )?;
    Ok(document)
}

fn inner_of(alloc: Global, payload: &FindRange) -> Result<Document, NoMemory>
    ensures elements { IfOk result (λ document. document ≡ inner_elements payload.now) }
    ensures again { IfOk result (λ _. AllByRecursion (λ edge. find_edge_of (find_edge_elements edge) ≡ Ok edge) payload.now.g) }
{
    let edges = array_of(alloc, &FindEdgeEntry, payload.g.slice())?;
    let mut document = Document::new(alloc);
    put(alloc, &mut document, "g", edges)?;
    put(alloc, &mut document, "cm", Value::Int64(payload.cm))?;
    Ok(document)
}

// An edge in an array.
#[derive(Clone, Copy)]
struct FindEdgeEntry;

impl Entry for FindEdgeEntry {
    ghost use Rattle.std.specs.Prelude.{◌≡◌, Ok};
    ghost use Rattle.qe_parts.specs.Edges.{find_edge_elements};
    ghost use Rattle.qe_find.specs.Range.{find_edge_of};

    type Of = FindEdge;

    ghost elements = { find_edge_elements };

    ghost again = { λ edge. find_edge_of (find_edge_elements edge) ≡ Ok edge };

    fn write(&self, alloc: Global, of: &FindEdge) -> Result<Document, NoMemory> {
        edge_document(alloc, of)
    }
}

fn edge_document(alloc: Global, edge: &FindEdge) -> Result<Document, NoMemory>
    ensures elements { IfOk result (λ document. document ≡ find_edge_elements edge.now) }
    ensures long { IfOk result (λ _. HasLongFindTokens edge.now) }
{
    let mut document = Document::new(alloc);
    put_binary(alloc, &mut document, "d", GENERIC, bytes_of(&edge.d))?;
    put_binary(alloc, &mut document, "s", GENERIC, bytes_of(&edge.s))?;
    put_binary(alloc, &mut document, "l", GENERIC, bytes_of(&edge.l))?;
    Ok(document)
}
