//! Find payloads of equality: FindEqualityPayloadV2.

ghost use Rattle.std.specs.Prelude.{◌≡◌, ◌≤ℤ◌, pos, FitsSigned, Ok, IfOk};
ghost use Rattle.qe_base.specs.Answers.{Answers};
ghost use Rattle.qe_document.specs.Faults.{encode_refusal};
ghost use Rattle.qe_document.specs.Spelling.{IsDocument};
ghost use Rattle.std.specs.Int.{w64};
ghost use Rattle.qe_layout.specs.Refusal.{Reads};
ghost use Rattle.qe_find.specs.Equal.{equal_of, equal_at, IsEqual, IsEqualBlob, equal_elements, written_equal, HasLongTokens};
ghost use Rattle.qe_find.specs.declared.equal.FindEqual.{FindEqual};

use qe_base::{Bytes, Duplicate, NoMemory, bytes_of};
use qe_document::{Document, EncodeFault, Value};
use qe_layout::{Kind, Layout, Malformed, arrange, open_blob, refuse};
use qe_parts::{GENERIC, Part, blob_of, number, number_in, put, put_binary, token, token_in};
use std::alloc::Global;

/// The first byte of a find payload of equality.
const FIRST: u8 = 12;

/// What a client sends to find the documents with a value.
#[derive(Clone, Copy, Debug, PartialEq, Eq)]
pub struct FindEqual {
    /// The item's token of documents, libmongocrypt's EDCDerivedFromDataToken.
    pub d: [u8; 32],
    /// The item's token of rows, ESCDerivedFromDataToken.
    pub s: [u8; 32],
    /// The item's token of blocks, ServerDerivedFromDataToken.
    pub l: [u8; 32],
    /// The greatest contention factor, 0 or more.
    pub cm: i64,
}

impl Duplicate for FindEqual {
    fn copy(&self) -> Result<Self, NoMemory> {
        Ok(*self)
    }
}

// The layout of the payload's document.
#[derive(Clone, Copy)]
struct EqualLayout;

impl Layout for EqualLayout {
    ghost use Rattle.qe_find.specs.Equal.{equal_reads, equal_rows};

    type Part = Part;

    ghost reads = { λ _. equal_reads };

    ghost rows = { λ _. equal_rows };

    #[tactic(auto, unfolding(crate::specs::Equal::equal_reads))]
    fn read(&self, alloc: Global, name: &str, value: Value) -> Result<Part, Malformed> {
        match name {
            "d" | "s" | "l" => token(alloc, name, value),
            "cm" => number(alloc, name, value),
            _ => refuse(alloc, name, Kind::Unknown),
        }
    }

    fn count(&self) -> usize {
        4
    }

    fn row(&self, place: usize) -> (&str, Option<Kind>) {
        match place {
            0 => ("d", Some(Kind::Missing)),
            1 => ("s", Some(Kind::Missing)),
            2 => ("l", Some(Kind::Missing)),
            _ => ("cm", Some(Kind::Missing)),
        }
    }
}

#[tactic(auto, unfolding(crate::specs::Equal::equal_of))]
fn read_document(alloc: Global, document: Document) -> Result<FindEqual, Malformed>
    ensures { Reads result (equal_of document) }
{
    let mut slots = arrange(alloc, &EqualLayout, document)?;
    Ok(FindEqual {
        d: token_in(slots.take(0)),
        s: token_in(slots.take(1)),
        l: token_in(slots.take(2)),
        cm: number_in(slots.take(3)),
    })
}

/// The payload that a blob is laid out as, or the first refusal and its path.
///
/// The blob is the byte 12 and a BSON document of `d`, `s` and `l`, each a binary of 32 bytes and subtype 0, and the
/// int64 `cm`, in any order.
#[tactic(auto, unfolding(crate::specs::Equal::equal_at))]
pub fn read_equal(alloc: Global, blob: &[u8]) -> Result<FindEqual, Malformed>
    ensures found { IfOk result (λ payload. IsEqualBlob payload blob.now) }
    ensures exact { Reads result (equal_at blob.now) }
{
    let document = open_blob(alloc, FIRST, blob)?;
    read_document(alloc, document)
}

/// The blob of a payload, its elements in the order of the type's fields. `read_equal` reads the payload again.
///
/// `cm` is 0 or more. It is refused for want of memory alone.
#[tactic(auto, unfolding(crate::specs::Equal::written_equal))]
pub fn write_equal(alloc: Global, payload: &FindEqual) -> Result<Bytes, EncodeFault>
    requires { pos 0 ≤ℤ payload.now.cm }
    // The payload's blob, or want of memory.
    ensures exact { Answers (λ blob. blob) encode_refusal result (Ok (written_equal payload.now)) }
    ensures again { IfOk result (λ blob. IsEqualBlob payload.now blob) }
    ensures fits { IfOk result (λ _. IsDocument (equal_elements payload.now)) }
{
    match document_of(alloc, payload) {
        Ok(document) => blob_of(alloc, FIRST, &document),
        Err(NoMemory) => Err(EncodeFault::NoMemory),
    }
}

fn document_of(alloc: Global, payload: &FindEqual) -> Result<Document, NoMemory>
    requires { pos 0 ≤ℤ payload.now.cm }
    ensures elements { IfOk result (λ document. document ≡ equal_elements payload.now) }
    ensures is { IfOk result (λ document. IsEqual payload.now document) }
    ensures fits { IfOk result (λ document. IsDocument document) }
{
    tokens_of(alloc, payload)
}

fn tokens_of(alloc: Global, payload: &FindEqual) -> Result<Document, NoMemory>
    ensures elements { IfOk result (λ document. document ≡ equal_elements payload.now) }
    ensures long { IfOk result (λ _. HasLongTokens payload.now) }
    ensures number { IfOk result (λ _. FitsSigned w64 payload.now.cm) }
{
    let mut document = Document::new(alloc);
    put_binary(alloc, &mut document, "d", GENERIC, bytes_of(&payload.d))?;
    put_binary(alloc, &mut document, "s", GENERIC, bytes_of(&payload.s))?;
    put_binary(alloc, &mut document, "l", GENERIC, bytes_of(&payload.l))?;
    put(alloc, &mut document, "cm", Value::Int64(payload.cm))?;
    Ok(document)
}
