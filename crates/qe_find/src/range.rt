//! Find payloads of ranges: FindRangePayloadV2.

ghost use Rattle.std.specs.Prelude.{◌≡◌, IfOk};
ghost use Rattle.qe_document.specs.Views.{plain};
ghost use Rattle.qe_layout.specs.Refusal.{Reads};
ghost use Rattle.qe_find.specs.Range.{find_edge_of, find_edges, find_edges_in, inner_of, inner, inner_in, range_of, range_at, IsRangeBlob};

use qe_base::{Duplicate, NoMemory};
use qe_document::{Document, Value};
use qe_layout::{
    Bounds, Item, Kind, Layout, Malformed, arrange, bounded_items, document, inside, open_blob,
    refuse,
};
use qe_parts::{
    FindEdge, FindEdges, Inner, Part, carried, extra_in, number, number_in, operator, token,
    token_in, whole, whole_in,
};
use std::alloc::Global;

/// The first byte of a find payload of a range.
pub(crate) const FIRST: u8 = 13;

/// The greatest number of edges.
const MOST_FIND_EDGES: usize = 4096;

/// The operator of the lower bound.
pub(crate) const FIRST_OPERATOR: i32 = 2;

/// The operator of the upper bound.
pub(crate) const SECOND_OPERATOR: i32 = 4;

/// What a client sends to find the documents with a value in a range.
#[derive(Drop)]
pub struct FindRange {
    /// The edges that cover the range, at most 4,096.
    pub g: FindEdges,
    /// The greatest contention factor, 0 or more.
    pub cm: i64,
    /// The place of the term in its filter, from 0.
    pub payload_id: i32,
    /// What stands under `sp`, `pn`, `tf`, `mn` and `mx`, in this order, carried unread.
    pub extra: Document,
}

impl Duplicate for FindRange {
    fn copy(&self) -> Result<Self, NoMemory> {
        Ok(FindRange {
            g: self.g.copy()?,
            cm: self.cm,
            payload_id: self.payload_id,
            extra: self.extra.copy()?,
        })
    }
}

// The layout of an edge.
#[derive(Clone, Copy)]
struct FindEdgeLayout;

impl Layout for FindEdgeLayout {
    ghost use Rattle.qe_find.specs.Range.{find_edge_reads, find_edge_rows};

    type Part = Part;

    ghost reads = { λ _. find_edge_reads };

    ghost rows = { λ _. find_edge_rows };

    #[tactic(auto, unfolding(crate::specs::Range::find_edge_reads))]
    fn read(&self, alloc: Global, name: &str, value: Value) -> Result<Part, Malformed> {
        match name {
            "d" | "s" | "l" => token(alloc, name, value),
            _ => refuse(alloc, name, Kind::Unknown),
        }
    }

    fn count(&self) -> usize {
        3
    }

    fn row(&self, place: usize) -> (&str, Option<Kind>) {
        match place {
            0 => ("d", Some(Kind::Missing)),
            1 => ("s", Some(Kind::Missing)),
            _ => ("l", Some(Kind::Missing)),
        }
    }
}

#[tactic(auto, unfolding(crate::specs::Range::find_edge_of))]
fn read_edge(alloc: Global, document: Document) -> Result<FindEdge, Malformed>
    ensures { Reads result (find_edge_of document) }
{
    let mut slots = arrange(alloc, &FindEdgeLayout, document)?;
    Ok(FindEdge {
        d: token_in(slots.take(0)),
        s: token_in(slots.take(1)),
        l: token_in(slots.take(2)),
    })
}

// An edge in an array.
#[derive(Clone, Copy)]
struct FindEdgeItem;

impl Item for FindEdgeItem {
    ghost use Rattle.qe_find.specs.Range.{find_edge_item};

    type Out = FindEdge;

    ghost reads = { λ _. find_edge_item };

    #[tactic(auto, unfolding(crate::specs::Range::find_edge_item))]
    fn item(&self, alloc: Global, index: &str, value: Value) -> Result<FindEdge, Malformed> {
        let edge = document(alloc, index, value)?;
        inside(alloc, index, read_edge(alloc, edge))
    }
}

fn find_edges(alloc: Global, name: &str, value: Value) -> Result<Part, Malformed>
    ensures { Reads result (find_edges name.now (plain value)) }
{
    let bounds = Bounds {
        some: false,
        most: MOST_FIND_EDGES,
    };
    Ok(Part::FindEdges(bounded_items(alloc, &FindEdgeItem, bounds, name, value)?))
}

fn find_edges_in(alloc: Global, slot: Option<Part>) -> FindEdges
    ensures { result ≡ find_edges_in slot }
{
    match slot {
        Some(Part::FindEdges(edges)) => edges,
        _ => FindEdges::new(alloc),
    }
}

// The layout of the inner document.
#[derive(Clone, Copy)]
struct InnerLayout;

impl Layout for InnerLayout {
    ghost use Rattle.qe_find.specs.Range.{inner_reads, inner_rows};

    type Part = Part;

    ghost reads = { λ _. inner_reads };

    ghost rows = { λ _. inner_rows };

    #[tactic(auto, unfolding(crate::specs::Range::inner_reads))]
    fn read(&self, alloc: Global, name: &str, value: Value) -> Result<Part, Malformed> {
        match name {
            "g" => find_edges(alloc, name, value),
            "cm" => number(alloc, name, value),
            _ => refuse(alloc, name, Kind::Unknown),
        }
    }

    fn count(&self) -> usize {
        2
    }

    fn row(&self, place: usize) -> (&str, Option<Kind>) {
        match place {
            0 => ("g", Some(Kind::Missing)),
            _ => ("cm", Some(Kind::Missing)),
        }
    }
}

#[tactic(auto, unfolding(crate::specs::Range::inner_of))]
fn read_inner(alloc: Global, document: Document) -> Result<Inner, Malformed>
    ensures { Reads result (inner_of document) }
{
    let mut slots = arrange(alloc, &InnerLayout, document)?;
    Ok(Inner {
        g: find_edges_in(alloc, slots.take(0)),
        cm: number_in(slots.take(1)),
    })
}

fn inner_part(alloc: Global, name: &str, value: Value) -> Result<Part, Malformed>
    ensures { Reads result (inner name.now (plain value)) }
{
    let elements = document(alloc, name, value)?;
    Ok(Part::Inner(inside(alloc, name, read_inner(alloc, elements))?))
}

fn inner_in(alloc: Global, slot: Option<Part>) -> Inner
    ensures { result ≡ inner_in slot }
{
    match slot {
        Some(Part::Inner(inner)) => inner,
        _ => Inner {
            g: FindEdges::new(alloc),
            cm: 0,
        },
    }
}

// The layout of the payload's document.
#[derive(Clone, Copy)]
struct RangeLayout;

impl Layout for RangeLayout {
    ghost use Rattle.qe_find.specs.Range.{range_reads, range_rows};

    type Part = Part;

    ghost reads = { λ _. range_reads };

    ghost rows = { λ _. range_rows };

    #[tactic(auto, unfolding(crate::specs::Range::range_reads))]
    fn read(&self, alloc: Global, name: &str, value: Value) -> Result<Part, Malformed> {
        match name {
            "payload" => inner_part(alloc, name, value),
            "payloadId" => whole(alloc, name, value),
            "firstOperator" => operator(alloc, name, value, FIRST_OPERATOR),
            "secondOperator" => operator(alloc, name, value, SECOND_OPERATOR),
            "sp" | "pn" | "tf" | "mn" | "mx" => carried(name, value),
            _ => refuse(alloc, name, Kind::Unknown),
        }
    }

    fn count(&self) -> usize {
        9
    }

    fn row(&self, place: usize) -> (&str, Option<Kind>) {
        match place {
            0 => ("payload", Some(Kind::Missing)),
            1 => ("payloadId", Some(Kind::Missing)),
            2 => ("firstOperator", Some(Kind::Missing)),
            3 => ("secondOperator", Some(Kind::ProfileOperator)),
            4 => ("sp", None),
            5 => ("pn", None),
            6 => ("tf", None),
            7 => ("mn", None),
            _ => ("mx", None),
        }
    }
}

#[tactic(auto, unfolding(crate::specs::Range::range_of))]
fn read_document(alloc: Global, document: Document) -> Result<FindRange, Malformed>
    ensures { Reads result (range_of document) }
{
    let mut slots = arrange(alloc, &RangeLayout, document)?;
    let extra = extra_in(
        alloc,
        slots.take(4),
        slots.take(5),
        slots.take(6),
        slots.take(7),
        slots.take(8),
    )?;
    let inner = inner_in(alloc, slots.take(0));
    Ok(FindRange {
        g: inner.g,
        cm: inner.cm,
        payload_id: whole_in(slots.take(1)),
        extra,
    })
}

/// The payload that a blob is laid out as, or the first refusal and its path.
///
/// The blob is the byte 13 and a BSON document, in any order, of `payload` (a document of `g`, an array of at most
/// 4,096 documents of `d`, `s` and `l`, each a binary of 32 bytes and subtype 0, and of the int64 `cm`), the int32
/// `payloadId`, `firstOperator` (the int32 2), `secondOperator` (the int32 4), and the optional `sp`, `pn`, `tf`, `mn`
/// and `mx`.
#[tactic(auto, unfolding(crate::specs::Range::range_at))]
pub fn read_range(alloc: Global, blob: &[u8]) -> Result<FindRange, Malformed>
    ensures found { IfOk result (λ payload. IsRangeBlob payload blob.now) }
    ensures exact { Reads result (range_at blob.now) }
{
    let document = open_blob(alloc, FIRST, blob)?;
    read_document(alloc, document)
}
