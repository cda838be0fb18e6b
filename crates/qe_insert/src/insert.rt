//! Insert payloads: InsertUpdatePayloadV2.

ghost use Rattle.std.specs.Prelude.{◌≡◌, IfOk};
ghost use Rattle.qe_document.specs.Views.{plain};
ghost use Rattle.qe_layout.specs.Refusal.{Reads};
ghost use Rattle.qe_insert.specs.Insert.{edge_of, edges, edges_in, insert_of, insert_at, IsInsertBlob};

use qe_base::{Bytes, Duplicate, NoMemory};
use qe_document::{Document, Value};
use qe_ecoc::Cipher;
use qe_layout::{
    Bounds, Item, Kind, Layout, Malformed, arrange, bounded_items, document, inside, open_blob,
    refuse,
};
use qe_parts::{
    EdgeList, EdgeTokens, Part, carried, cipher, cipher_in, extra_in, key_id, key_id_in, number,
    number_in, sealed, sealed_in, token, token_in, whole, whole_in,
};
use std::alloc::Global;

/// The first byte of an insert payload.
pub(crate) const FIRST: u8 = 11;

/// The greatest number of edges.
const MOST_EDGES: usize = 65;

/// What a client sends to insert or to set a value.
#[derive(Drop)]
pub struct InsertPayload {
    /// The value's token of documents under the contention factor, libmongocrypt's
    /// EDCDerivedFromDataTokenAndContentionFactor.
    pub d: [u8; 32],
    /// The value's token of rows under the contention factor, ESCDerivedFromDataTokenAndContentionFactor.
    pub s: [u8; 32],
    /// An IV, and in AES-256-CTR under the ECOCToken `s` and maybe a leaf byte, for the rows that a compaction reads.
    pub p: Cipher,
    /// The id of the index key.
    pub u: [u8; 16],
    /// The BSON type of the value.
    pub t: i32,
    /// The id of the user key and the sealed value, at least 80 bytes.
    pub v: Bytes,
    /// The key of the server-encrypted value, ServerDataEncryptionLevel1Token.
    pub e: [u8; 32],
    /// The value's token of blocks, ServerDerivedFromDataToken.
    pub l: [u8; 32],
    /// The contention factor, 0 or more.
    pub k: i64,
    /// The edges of a range, 1 to 65.
    pub g: Option<EdgeList>,
    /// What stands under `sp`, `pn`, `tf`, `mn` and `mx`, in this order, carried unread.
    pub extra: Document,
}

impl Duplicate for InsertPayload {
    fn copy(&self) -> Result<Self, NoMemory> {
        let g = match &self.g {
            Some(edges) => Some(edges.copy()?),
            None => None,
        };
        Ok(InsertPayload {
            d: self.d,
            s: self.s,
            p: self.p,
            u: self.u,
            t: self.t,
            v: self.v.copy()?,
            e: self.e,
            l: self.l,
            k: self.k,
            g,
            extra: self.extra.copy()?,
        })
    }
}

// The layout of an edge.
#[derive(Clone, Copy)]
struct EdgeLayout;

impl Layout for EdgeLayout {
    ghost use Rattle.qe_insert.specs.Insert.{edge_reads, edge_rows};

    type Part = Part;

    ghost reads = { λ _. edge_reads };

    ghost rows = { λ _. edge_rows };

    #[tactic(auto, unfolding(crate::specs::Insert::edge_reads))]
    fn read(&self, alloc: Global, name: &str, value: Value) -> Result<Part, Malformed> {
        match name {
            "d" | "s" | "l" => token(alloc, name, value),
            "p" => cipher(alloc, name, value),
            _ => refuse(alloc, name, Kind::Unknown),
        }
    }

    fn count(&self) -> usize {
        4
    }

    fn row(&self, place: usize) -> (&str, Option<Kind>) {
        match place {
            0 => ("d", Some(Kind::Missing)),
            1 => ("s", Some(Kind::Missing)),
            2 => ("l", Some(Kind::Missing)),
            _ => ("p", Some(Kind::Missing)),
        }
    }
}

#[tactic(auto, unfolding(crate::specs::Insert::edge_of))]
fn read_edge(alloc: Global, document: Document) -> Result<EdgeTokens, Malformed>
    ensures { Reads result (edge_of document) }
{
    let mut slots = arrange(alloc, &EdgeLayout, document)?;
    Ok(EdgeTokens {
        d: token_in(slots.take(0)),
        s: token_in(slots.take(1)),
        l: token_in(slots.take(2)),
        p: cipher_in(slots.take(3)),
    })
}

// An edge in an array.
#[derive(Clone, Copy)]
struct EdgeItem;

impl Item for EdgeItem {
    ghost use Rattle.qe_insert.specs.Insert.{edge_item};

    type Out = EdgeTokens;

    ghost reads = { λ _. edge_item };

    #[tactic(auto, unfolding(crate::specs::Insert::edge_item))]
    fn item(&self, alloc: Global, index: &str, value: Value) -> Result<EdgeTokens, Malformed> {
        let edge = document(alloc, index, value)?;
        inside(alloc, index, read_edge(alloc, edge))
    }
}

fn edges(alloc: Global, name: &str, value: Value) -> Result<Part, Malformed>
    ensures { Reads result (edges name.now (plain value)) }
{
    let bounds = Bounds {
        some: true,
        most: MOST_EDGES,
    };
    Ok(Part::Edges(bounded_items(alloc, &EdgeItem, bounds, name, value)?))
}

fn edges_in(slot: Option<Part>) -> Option<EdgeList>
    ensures { result ≡ edges_in slot }
{
    match slot {
        Some(Part::Edges(edges)) => Some(edges),
        _ => None,
    }
}

// The layout of the payload's document.
#[derive(Clone, Copy)]
struct InsertLayout;

impl Layout for InsertLayout {
    ghost use Rattle.qe_insert.specs.Insert.{insert_reads, insert_rows};

    type Part = Part;

    ghost reads = { λ _. insert_reads };

    ghost rows = { λ _. insert_rows };

    #[tactic(auto, unfolding(crate::specs::Insert::insert_reads))]
    fn read(&self, alloc: Global, name: &str, value: Value) -> Result<Part, Malformed> {
        match name {
            "d" | "s" | "e" | "l" => token(alloc, name, value),
            "p" => cipher(alloc, name, value),
            "u" => key_id(alloc, name, value),
            "t" => whole(alloc, name, value),
            "v" => sealed(alloc, name, value),
            "k" => number(alloc, name, value),
            "g" => edges(alloc, name, value),
            "sp" | "pn" | "tf" | "mn" | "mx" => carried(name, value),
            _ => refuse(alloc, name, Kind::Unknown),
        }
    }

    fn count(&self) -> usize {
        15
    }

    fn row(&self, place: usize) -> (&str, Option<Kind>) {
        match place {
            0 => ("d", Some(Kind::Missing)),
            1 => ("s", Some(Kind::Missing)),
            2 => ("p", Some(Kind::Missing)),
            3 => ("u", Some(Kind::Missing)),
            4 => ("t", Some(Kind::Missing)),
            5 => ("v", Some(Kind::Missing)),
            6 => ("e", Some(Kind::Missing)),
            7 => ("l", Some(Kind::Missing)),
            8 => ("k", Some(Kind::Missing)),
            9 => ("g", None),
            10 => ("sp", None),
            11 => ("pn", None),
            12 => ("tf", None),
            13 => ("mn", None),
            _ => ("mx", None),
        }
    }
}

#[tactic(auto, unfolding(crate::specs::Insert::insert_of))]
fn read_document(alloc: Global, document: Document) -> Result<InsertPayload, Malformed>
    ensures { Reads result (insert_of document) }
{
    let mut slots = arrange(alloc, &InsertLayout, document)?;
    let extra = extra_in(
        alloc,
        slots.take(10),
        slots.take(11),
        slots.take(12),
        slots.take(13),
        slots.take(14),
    )?;
    Ok(InsertPayload {
        d: token_in(slots.take(0)),
        s: token_in(slots.take(1)),
        p: cipher_in(slots.take(2)),
        u: key_id_in(slots.take(3)),
        t: whole_in(slots.take(4)),
        v: sealed_in(alloc, slots.take(5)),
        e: token_in(slots.take(6)),
        l: token_in(slots.take(7)),
        k: number_in(slots.take(8)),
        g: edges_in(slots.take(9)),
        extra,
    })
}

/// The payload that a blob is laid out as, or the first refusal and its path.
///
/// The blob is the byte 11 and a BSON document, in any order, of `d`, `s`, `e` and `l` (binaries of 32 bytes and
/// subtype 0), `p` (48 or 49 bytes), `u` (16 bytes of subtype 4), the int32 `t`, `v` (80 bytes or more), the int64 `k`, for
/// a range `g` (an array of 1 to 65 documents of `d`, `s`, `l` and `p`), and the optional `sp`, `pn`, `tf`, `mn`, `mx`.
#[tactic(auto, unfolding(crate::specs::Insert::insert_at))]
pub fn read_insert(alloc: Global, blob: &[u8]) -> Result<InsertPayload, Malformed>
    ensures found { IfOk result (λ payload. IsInsertBlob payload blob.now) }
    ensures exact { Reads result (insert_at blob.now) }
{
    let document = open_blob(alloc, FIRST, blob)?;
    read_document(alloc, document)
}
