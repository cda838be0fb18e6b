//! Command documents of two fields, as a client would send them.

ghost use Rattle.std.specs.Prelude.{◌≡◌, length, IfOk};
ghost use Rattle.qe_command_document.specs.CommandDocument.{Fits};
ghost use Rattle.qe_insert.specs.Insert.{FewEdges};

use crate::tokens::{FieldTokens, field_tokens, find_tokens, insert_tokens};
use qe_base::{Bytes, NoMemory, Text, write_at};
use qe_document::{Document, Value, Values, decode, encode};
use qe_engine::{Command, read_command};
use qe_find::write_equal;
use qe_insert::{InsertPayload, write_insert};
use qe_line::{Fault, accepted};
use qe_parts::{EdgeList, EdgeTokens};
use qe_schema::Schema;
use std::alloc::Global;

// The document of a schema: `color`, an int with equality, and `price`, an int with ranges from 0 to 8191, sparsity 1 and
// trim factor 0. Both have contention 0.
const SCHEMA: &str =
    "53010000046669656c647300460100000330007f00000002706174680006000000636f6c6f72000262736f6e547970650004\
    000000696e7400026b65794964002500000030303030303030302d303030302d343030302d383030302d3030303030303030\
    30303031000271756572790009000000657175616c6974790012636f6e74656e74696f6e00000000000000000000033100bc\
    000000027061746800060000007072696365000262736f6e547970650004000000696e7400026b6579496400250000003030\
    3030303030302d303030302d343030302d383030302d30303030303030303030303200027175657279000600000072616e67\
    6500126d696e000000000000000000126d617800ff1f00000000000012737061727369747900010000000000000012747269\
    6d466163746f7200000000000000000012636f6e74656e74696f6e000000000000000000000000";

// Edges of a price: of all prices, of each half, and on to the price itself.
const LEVELS: u32 = 14;

/// The two fields.
#[derive(Clone, Copy)]
pub struct Fields {
    color: FieldTokens,
    price: FieldTokens,
}

/// The tokens of both fields.
pub fn two_fields() -> Fields {
    Fields {
        color: field_tokens(1),
        price: field_tokens(2),
    }
}

/// The schema of both fields.
pub fn schema(alloc: Global) -> Result<Schema, Fault> {
    let bytes = hex::decode(alloc, SCHEMA)?;
    let (document, _) = accepted(decode(alloc, bytes.as_slice()))?;
    accepted(Schema::read(alloc, &document))
}

// The id of a field's key.
fn key_id(key: u8) -> [u8; 16] {
    [0, 0, 0, 0, 0, 0, 0x40, 0, 0x80, 0, 0, 0, 0, 0, 0, key]
}

// The item of a document's color, one of a thousand.
fn color_item(number: u32) -> [u8; 4] {
    (number % 1000).to_le_bytes()
}

// The item of an edge of its price: the edge's level, and the first bits of the price.
fn price_item(number: u32, level: u32) -> [u8; 8] {
    let price = number.wrapping_mul(2_654_435_761) >> 19;
    let front = u64::from(price) >> (13 - level.min(13));
    ((u64::from(level) << 32) | front).to_le_bytes()
}

fn price_edges(alloc: Global, field: &FieldTokens, number: u32) -> Result<EdgeList, NoMemory>
    ensures { IfOk result (λ edges. length edges ≡ 14) }
{
    let mut edges = EdgeList::new(alloc);
    for level in 0..LEVELS {
        let leaf = u8::from(level == 13);
        edges.push(insert_tokens(field, &price_item(number, level), Some(leaf)))?;
    }
    Ok(edges)
}

// The blob of a value to be inserted.
fn insert_blob(alloc: Global, key: u8, own: EdgeTokens, g: Option<EdgeList>) -> Result<Value, Fault>
    requires { FewEdges g }
{
    let mut sealed = [7; 80];
    write_at(&mut sealed, 0, &key_id(key));
    let payload = InsertPayload {
        d: own.d,
        s: own.s,
        p: own.p,
        u: key_id(key),
        t: 16,
        v: Bytes::from_slice(alloc, &sealed)?,
        e: [3; 32],
        l: own.l,
        k: 0,
        g,
        extra: Document::new(alloc),
    };
    Ok(encrypted(accepted(write_insert(alloc, &payload))?))
}

fn encrypted(bytes: Bytes) -> Value {
    Value::Binary { subtype: 6, bytes }
}

// Adds an element.
fn add(alloc: Global, document: &mut Document, name: &str, value: Value) -> Result<(), Fault> {
    accepted(document.push(Text::of(alloc, name)?, value))
}

// A command's document with its name.
fn named(alloc: Global, name: &str) -> Result<Document, Fault> {
    let mut document = Document::new(alloc);
    let name = Value::Str(Text::of(alloc, name)?);
    add(alloc, &mut document, "op", name)?;
    Ok(document)
}

/// Inserts the document of a number.
pub fn insert_of(alloc: Global, fields: &Fields, number: u32) -> Result<Document, Fault> {
    let color = insert_tokens(&fields.color, &color_item(number), None);
    let edges = price_edges(alloc, &fields.price, number)?;
    let mut inserted = Document::new(alloc);
    add(alloc, &mut inserted, "_id", Value::Int64(i64::from(number)))?;
    let blob = insert_blob(alloc, 1, color, None)?;
    add(alloc, &mut inserted, "color", blob)?;
    let blob = insert_blob(alloc, 2, color, Some(edges))?;
    add(alloc, &mut inserted, "price", blob)?;
    let mut document = named(alloc, "insert")?;
    add(alloc, &mut document, "doc", Value::Doc(inserted))?;
    Ok(document)
}

/// Finds the ids of the documents with the color of a number.
pub fn find_of(alloc: Global, fields: &Fields, number: u32) -> Result<Document, Fault> {
    let payload = find_tokens(&fields.color, &color_item(number));
    let mut term = Document::new(alloc);
    let blob = encrypted(accepted(write_equal(alloc, &payload))?);
    add(alloc, &mut term, "color", blob)?;
    let mut filter = Values::new(alloc);
    filter.push(Value::Doc(term))?;
    let mut document = named(alloc, "find")?;
    add(alloc, &mut document, "filter", Value::Array(filter))?;
    add(alloc, &mut document, "ids", Value::Bool(true))?;
    Ok(document)
}

/// Begins a compaction.
pub fn begin_of(alloc: Global, fields: &Fields) -> Result<Document, Fault> {
    let mut tokens = Document::new(alloc);
    for (name, field) in [("color", &fields.color), ("price", &fields.price)] {
        let bytes = Bytes::from_slice(alloc, &field.ecoc.0)?;
        add(
            alloc,
            &mut tokens,
            name,
            Value::Binary { subtype: 0, bytes },
        )?;
    }
    let mut document = named(alloc, "begin")?;
    let kind = Value::Str(Text::of(alloc, "compact")?);
    add(alloc, &mut document, "kind", kind)?;
    add(alloc, &mut document, "tokens", Value::Doc(tokens))?;
    Ok(document)
}

/// A step of the first job.
pub fn step_of(alloc: Global, limit: i32) -> Result<Document, Fault> {
    let mut document = named(alloc, "step")?;
    add(alloc, &mut document, "job", Value::Int64(1))?;
    add(alloc, &mut document, "limit", Value::Int32(limit))?;
    Ok(document)
}

/// The end of the first job.
pub fn end_of(alloc: Global) -> Result<Document, Fault> {
    let mut document = named(alloc, "end")?;
    add(alloc, &mut document, "job", Value::Int64(1))?;
    Ok(document)
}

/// The command of a document.
pub fn command_of(alloc: Global, schema: &Schema, document: &Document) -> Result<Command, Fault>
    ensures { IfOk result (Fits schema.now) }
{
    let bytes = accepted(encode(alloc, document))?;
    command_from(alloc, schema, bytes.slice())
}

// The command of a document's bytes.
fn command_from(alloc: Global, schema: &Schema, bytes: &[u8]) -> Result<Command, Fault>
    ensures { IfOk result (Fits schema.now) }
{
    match read_command(alloc, schema, bytes) {
        Ok(command) => Ok(command),
        Err(_) => Err(Fault::Refused),
    }
}
