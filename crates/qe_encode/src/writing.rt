//! Writing documents: all bytes go to the end of one vector, up to a limit, and each length is filled in once it is known.

ghost use Rattle.std.specs.Prelude.{◌≡◌, ℕ, ◌+◌, ◌≤◌, ◌∷◌, [], ◌++◌, List, Ok, length, map, IfOk};
ghost use Rattle.qe_base.specs.Answers.{Answers};
ghost use Rattle.qe_value.specs.Faults.{encode_refusal};
ghost use Rattle.qe_value.specs.Reading.{document_at, alone_at};
ghost use Rattle.qe_value.specs.Views.{plain};
ghost use Rattle.qe_value.specs.Spelling.{element, fields_bytes, items_bytes, framed, string, binary as binary_bytes, spelled, spelled_field, document_bytes, IsDocument};
ghost use Rattle.qe_value.specs.Types.{type_byte};
ghost use Rattle.qe_encode.specs.Writing.{Writes, spell, written_as, encoded, value_encoded};

use itoa::Buffer;
use qe_base::Bytes;
use qe_value::{
    Document, ElementType, EncodeFault, MOST_BYTES, MOST_LEVELS, Value, Values, has_zero,
    is_within, value_has_zero, value_within,
};
use std::alloc::Global;

// The bytes of a document with one field of the empty name, without the value's.
const FRAME: usize = 7;

// Adds bytes. The limit is that of the whole vector, what stands before a document with it.
fn put(out: &mut Vec<u8>, limit: u32, bytes: &[u8]) -> Result<(), EncodeFault>
    ensures { Writes limit out.old.items out.new.items result bytes.now }
{
    let limit = limit as usize;
    if out.len() > limit || bytes.len() > limit - out.len() {
        return Err(EncodeFault::TooLong);
    }
    out.extend_from_slice(bytes)?;
    Ok(())
}

// Adds an element's type byte and name.
fn put_head(out: &mut Vec<u8>, limit: u32, kind: u8, name: &str) -> Result<(), EncodeFault>
    ensures { Writes limit out.old.items out.new.items result (kind ∷ (name.now ++ (0 ∷ []))) }
{
    let limit = limit as usize;
    if out.len() > limit || name.len() > limit || out.len() + name.len() + 2 > limit {
        return Err(EncodeFault::TooLong);
    }
    out.push(kind)?;
    out.extend_from_slice(name.as_bytes())?;
    out.push(0)?;
    Ok(())
}

// Adds a string.
fn put_string(out: &mut Vec<u8>, limit: u32, text: &str) -> Result<(), EncodeFault>
    ensures { Writes limit out.old.items out.new.items result (string text.now) }
{
    let limit = limit as usize;
    if out.len() > limit || text.len() > limit || out.len() + text.len() + 5 > limit {
        return Err(EncodeFault::TooLong);
    }
    out.extend_from_slice(&(text.len() as u32 + 1).to_le_bytes())?;
    out.extend_from_slice(text.as_bytes())?;
    out.push(0)?;
    Ok(())
}

// Adds a binary.
fn put_binary(out: &mut Vec<u8>, limit: u32, subtype: u8, bytes: &[u8]) -> Result<(), EncodeFault>
    ensures { Writes limit out.old.items out.new.items result (binary_bytes subtype bytes.now) }
{
    let limit = limit as usize;
    if out.len() > limit || bytes.len() > limit || out.len() + bytes.len() + 5 > limit {
        return Err(EncodeFault::TooLong);
    }
    out.extend_from_slice(&(bytes.len() as u32).to_le_bytes())?;
    out.push(subtype)?;
    out.extend_from_slice(bytes)?;
    Ok(())
}

// Ends the document whose length stands at `start`.
fn close(out: &mut Vec<u8>, limit: u32, start: usize) -> Result<(), EncodeFault>
    requires place { start + 4 ≤ length out.old.items }
    requires small { length out.old.items ≤ limit }
    ensures { (front elements : List ℕ) → length front ≡ start → out.old.items ≡ front ++ ((0 ∷ 0 ∷ 0 ∷ 0 ∷ []) ++ elements) → Writes limit front out.new.items result (framed elements) }
{
    if out.len() == limit as usize {
        return Err(EncodeFault::TooLong);
    }
    out.push(0)?;
    let length = (out.len() - start) as u32;
    out[start..start + 4].copy_from_slice(&length.to_le_bytes());
    Ok(())
}

// A value's type.
fn kind_of(value: &Value) -> ElementType
    ensures { result ≡ (spell value.now).kind }
{
    match value {
        Value::Double(_) => ElementType::Double,
        Value::Str(_) => ElementType::Str,
        Value::Doc(_) => ElementType::Doc,
        Value::Array(_) => ElementType::Array,
        Value::Binary { .. } => ElementType::Binary,
        Value::ObjectId(_) => ElementType::ObjectId,
        Value::Bool(_) => ElementType::Bool,
        Value::Date(_) => ElementType::Date,
        Value::Null => ElementType::Null,
        Value::Int32(_) => ElementType::Int32,
        Value::Timestamp(_) => ElementType::Timestamp,
        Value::Int64(_) => ElementType::Int64,
        Value::Decimal(_) => ElementType::Decimal,
    }
}

// Adds the bytes behind an element's name.
#[cycle(write)]
fn put_value(out: &mut Vec<u8>, limit: u32, value: &Value) -> Result<(), EncodeFault>
    ensures { Writes limit out.old.items out.new.items result (spell value.now).bytes }
{
    match value {
        Value::Double(bytes) => put(out, limit, bytes),
        Value::Str(text) => put_string(out, limit, text.as_str()),
        Value::Doc(document) => put_document(out, limit, document),
        Value::Array(items) => put_array(out, limit, items),
        Value::Binary { subtype, bytes } => put_binary(out, limit, *subtype, bytes.slice()),
        Value::ObjectId(bytes) => put(out, limit, bytes),
        Value::Bool(b) => put(out, limit, &[*b as u8]),
        Value::Date(n) => put(out, limit, &n.to_le_bytes()),
        Value::Null => put(out, limit, &[]),
        Value::Int32(n) => put(out, limit, &n.to_le_bytes()),
        Value::Timestamp(n) => put(out, limit, &n.to_le_bytes()),
        Value::Int64(n) => put(out, limit, &n.to_le_bytes()),
        Value::Decimal(bytes) => put(out, limit, bytes),
    }
}

#[cycle(write)]
fn put_element(out: &mut Vec<u8>, limit: u32, name: &str, value: &Value) -> Result<(), EncodeFault>
    ensures { Writes limit out.old.items out.new.items result (element name.now (spell value.now)) }
{
    put_head(out, limit, kind_of(value).byte(), name)?;
    put_value(out, limit, value)
}

#[cycle(write)]
fn put_document(out: &mut Vec<u8>, limit: u32, document: &Document) -> Result<(), EncodeFault>
    ensures { Writes limit out.old.items out.new.items result (framed (fields_bytes (map spelled_field document.now))) }
{
    let start = out.len();
    put(out, limit, &[0; 4])?;
    for (name, value) in document.slice() {
        put_element(out, limit, name.as_str(), value)?;
    }
    close(out, limit, start)
}

#[cycle(write)]
fn put_array(out: &mut Vec<u8>, limit: u32, values: &Values) -> Result<(), EncodeFault>
    ensures { Writes limit out.old.items out.new.items result (framed (items_bytes 0 (map spelled values.now))) }
{
    let start = out.len();
    put(out, limit, &[0; 4])?;
    let mut buffer = Buffer::new();
    for (i, item) in values.slice().iter().enumerate() {
        put_element(out, limit, buffer.format(i), item)?;
    }
    close(out, limit, start)
}

// What stands in front, and the document's bytes behind it.
fn document_out(alloc: Global, front: &[u8], document: &Document) -> Result<Bytes, EncodeFault>
    requires { length front.now ≤ 1 }
    ensures exact { Answers (λ out. out) encode_refusal result (written_as document.now (front.now ++ document_bytes document.now)) }
    ensures fits { IfOk result (λ _. IsDocument document.now) }
{
    let mut out = Vec::new(alloc);
    out.extend_from_slice(front)?;
    let limit = (MOST_BYTES + front.len()) as u32;
    put_document(&mut out, limit, document)?;
    if !is_within(document, MOST_LEVELS) {
        return Err(EncodeFault::TooDeep);
    }
    if has_zero(document) {
        return Err(EncodeFault::ZeroInName);
    }
    Ok(Bytes::from_vec(alloc, out))
}

/// The bytes of a document.
pub fn encode(alloc: Global, document: &Document) -> Result<Bytes, EncodeFault>
    // Its bytes, or its first refusal.
    ensures exact { Answers (λ out. out) encode_refusal result (encoded document.now) }
    ensures fits { IfOk result (λ _. IsDocument document.now) }
    // The bytes are read as the document again.
    ensures again { IfOk result (λ out. document_at out ≡ Ok (document.now, length out)) }
{
    document_out(alloc, &[], document)
}

/// A byte, and the bytes of a document behind it. It is refused as the document is.
pub fn encode_behind(alloc: Global, first: u8, document: &Document) -> Result<Bytes, EncodeFault>
    // The byte and the document's bytes, or the document's first refusal.
    ensures exact { Answers (λ out. out) encode_refusal result (written_as document.now (first ∷ document_bytes document.now)) }
    ensures fits { IfOk result (λ _. IsDocument document.now) }
{
    document_out(alloc, &[first], document)
}

fn value_out(alloc: Global, value: &Value) -> Result<Bytes, EncodeFault>
    ensures exact { Answers (λ out. out) encode_refusal result (value_encoded (plain value.now)) }
    ensures fits { IfOk result (λ _. IsDocument (([], plain value.now) ∷ [])) }
{
    let mut out = Vec::new(alloc);
    put_value(&mut out, MOST_BYTES as u32, value)?;
    if out.len() + FRAME > MOST_BYTES {
        return Err(EncodeFault::TooLong);
    }
    if !value_within(value, MOST_LEVELS - 1) {
        return Err(EncodeFault::TooDeep);
    }
    if value_has_zero(value) {
        return Err(EncodeFault::ZeroInName);
    }
    Ok(Bytes::from_vec(alloc, out))
}

/// The bytes of a value as they stand behind an element's name. They are refused as a document is whose one field has
/// the empty name and this value.
pub fn value_bytes(alloc: Global, value: &Value) -> Result<Bytes, EncodeFault>
    // Its bytes, or its first refusal.
    ensures exact { Answers (λ out. out) encode_refusal result (value_encoded (plain value.now)) }
    ensures fits { IfOk result (λ _. IsDocument (([], plain value.now) ∷ [])) }
    // The bytes are read as the value again.
    ensures again { IfOk result (λ out. alone_at (type_byte (spelled (plain value.now)).kind) out ≡ Ok (plain value.now)) }
{
    value_out(alloc, value)
}

/// The byte of a value's type, which stands before an element's name.
pub fn value_kind(value: &Value) -> u8
    ensures { result ≡ type_byte (spelled (plain value.now)).kind }
{
    kind_of(value).byte()
}
