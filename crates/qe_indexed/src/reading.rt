//! An indexed value from bytes.

ghost use Rattle.std.specs.Prelude.{◌≡◌, ◌%◌, ◌<◌, length, slice_index, true, false, Ok, IfOk};
ghost use Rattle.qe_base.specs.Answers.{Answers};
ghost use Rattle.qe_indexed.specs.Parts.{Indexed};
ghost use Rattle.qe_indexed.specs.Spelling.{IsLaidOut, HasShape, AreBlocks, head_length};
ghost use Rattle.qe_indexed.specs.Reading.{indexed_at, kind_and_count, shape_at};
ghost use Rattle.qe_indexed.specs.Faults.{equality_refusal, range_refusal, kept_fault, unless_refused};

use crate::block::{BLOCK_LEN, Block};
use crate::fault::IndexedFault;
use crate::value::{Blocks, IndexedValue};
use crate::writing::{EQUALITY, RANGE};
use qe_base::{Bytes, NoMemory, array_at};
use std::alloc::Global;

/// The length of the shortest equality value, in bytes: the head, an IV and one block.
const SHORTEST: usize = 130;

/// The length of a range value's head, in bytes.
const RANGE_HEAD_LEN: usize = 19;

/// The length of an IV, the least that a server-encrypted value has, in bytes.
const IV_LEN: usize = 16;

// What the first bytes tell of a value.
#[derive(Clone, Copy)]
struct Shape {
    range: bool,
    // how many blocks it has
    count: usize,
}

impl IndexedValue {
    /// The value that the bytes are laid out as, or the first refusal of `IndexedFault` in its order: no bytes, the
    /// first byte, the least length, the edge count, the length.
    pub fn read(alloc: Global, bytes: &[u8]) -> Result<IndexedValue, IndexedFault>
        ensures found { IfOk result (λ value. IsLaidOut value bytes.now) }
        ensures only { (value : Indexed) → IsLaidOut value bytes.now → Answers (λ read. read) kept_fault result (Ok value) }
        ensures exact { Answers (λ value. value) kept_fault result (indexed_at bytes.now) }
    {
        let shape = shape_of(bytes)?;
        let value = value_of(alloc, bytes, shape)?;
        Ok(value)
    }
}

fn shape_of(bytes: &[u8]) -> Result<Shape, IndexedFault>
    ensures shape { IfOk result (λ shape. HasShape shape.range shape.count bytes.now) }
    ensures exact { Answers kind_and_count kept_fault result (shape_at bytes.now) }
{
    match bytes.first() {
        None => Err(IndexedFault::Short),
        Some(&EQUALITY) => equality_shape(bytes),
        Some(&RANGE) => range_shape(bytes),
        Some(&other) => Err(IndexedFault::BlobSubtype(other)),
    }
}

fn equality_shape(bytes: &[u8]) -> Result<Shape, IndexedFault>
    requires some { 0 < length bytes.now }
    requires first { slice_index bytes.now 0 ≡ 14 }
    ensures shape { IfOk result (λ shape. HasShape shape.range shape.count bytes.now) }
    ensures exact { Answers kind_and_count kept_fault result (unless_refused (equality_refusal (length bytes.now)) (false, 1)) }
{
    if bytes.len() < SHORTEST {
        return Err(IndexedFault::Short);
    }
    Ok(Shape {
        range: false,
        count: 1,
    })
}

fn range_shape(bytes: &[u8]) -> Result<Shape, IndexedFault>
    requires some { 0 < length bytes.now }
    requires first { slice_index bytes.now 0 ≡ 15 }
    ensures shape { IfOk result (λ shape. HasShape shape.range shape.count bytes.now) }
    ensures exact { let count = slice_index bytes.now 18 in
        Answers kind_and_count kept_fault result (unless_refused (range_refusal (length bytes.now) count) (true, count)) }
{
    if bytes.len() < RANGE_HEAD_LEN {
        return Err(IndexedFault::Short);
    }
    let count = bytes[18] as usize;
    if count == 0 {
        return Err(IndexedFault::EdgeCountZero);
    }
    if bytes.len() < RANGE_HEAD_LEN + IV_LEN + BLOCK_LEN * count {
        return Err(IndexedFault::LengthWrong);
    }
    Ok(Shape { range: true, count })
}

fn head_length(range: bool) -> usize
    ensures { result ≡ head_length range }
{
    if range {
        RANGE_HEAD_LEN
    } else {
        RANGE_HEAD_LEN - 1
    }
}

fn value_of(alloc: Global, bytes: &[u8], shape: Shape) -> Result<IndexedValue, NoMemory>
    requires { HasShape shape.range shape.count bytes.now }
    ensures { IfOk result (λ value. IsLaidOut value bytes.now) }
{
    let (head, body) = bytes.split_at(head_length(shape.range));
    let (server_value, blocks) = body.split_at(body.len() - BLOCK_LEN * shape.count);
    let server_value = Bytes::from_slice(alloc, server_value)?;
    let blocks = blocks_of(alloc, blocks)?;
    Ok(IndexedValue {
        range: shape.range,
        key_id: array_at(head, 1),
        value_kind: head[17],
        server_value,
        blocks,
    })
}

fn blocks_of(alloc: Global, bytes: &[u8]) -> Result<Blocks, NoMemory>
    requires { length bytes.now % 96 ≡ 0 }
    ensures { IfOk result (λ blocks. AreBlocks blocks bytes.now) }
{
    let mut blocks = Blocks::new(alloc);
    for i in 0..bytes.len() / BLOCK_LEN {
        blocks.push(Block(array_at(bytes, BLOCK_LEN * i)))?;
    }
    Ok(blocks)
}
