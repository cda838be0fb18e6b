//! The line of a blob.

ghost use Rattle.std.specs.Prelude.{◌≡◌, IfOk};
ghost use Rattle.qe_layout.specs.Refusal.{refusal_of};
ghost use Rattle.qe_show.specs.Blob.{indexed_head, indexed_line, refusal_line, form_of, IsLineOf, ShowsAs, ShowsBlob};
ghost use Rattle.qe_show.specs.Kinds.{kind_text, indexed_text};

use crate::kinds::{indexed_text, kind_text};
use crate::parts::{Item, put_hex, put_items, put_number, put_uuid};
use crate::payloads::{equal_line, insert_line, range_line};
use qe_base::{Bytes, NoMemory};
use qe_indexed::{Block, IndexedFault, IndexedValue};
use qe_payload::{Malformed, read_equal, read_insert, read_range};
use std::alloc::Global;

/// What a blob is, by its first byte.
#[derive(Clone, Copy)]
pub enum Form {
    /// An insert payload, whose first byte is 11.
    Insert,
    /// A find payload of equality, whose first byte is 12.
    Equal,
    /// A find payload of a range, whose first byte is 13.
    Range,
    /// An indexed value, or no blob that is known.
    Indexed,
}

impl Item for Block {
    ghost use Rattle.qe_show.specs.Blob.{block_part};

    ghost part = { block_part };

    fn put(&self, alloc: Global, line: &mut Bytes, place: usize) -> Result<(), NoMemory> {
        let name = format!(in alloc; "b{place}")?;
        put_hex(alloc, line, name.as_str(), &self.0)
    }
}

/// The line of a blob, without its end.
pub fn blob_line(alloc: Global, blob: &[u8]) -> Result<Bytes, NoMemory>
    ensures { IfOk result (ShowsBlob blob.now) }
{
    match form_of(blob) {
        Form::Insert => shown_insert(alloc, blob),
        Form::Equal => shown_equal(alloc, blob),
        Form::Range => shown_range(alloc, blob),
        Form::Indexed => shown_indexed(alloc, blob),
    }
}

#[tactic(auto, unfolding(crate::specs::Blob::form_of))]
fn form_of(blob: &[u8]) -> Form
    ensures { result ≡ form_of blob.now }
{
    match blob.first() {
        Some(11) => Form::Insert,
        Some(12) => Form::Equal,
        Some(13) => Form::Range,
        _ => Form::Indexed,
    }
}

fn shown_insert(alloc: Global, blob: &[u8]) -> Result<Bytes, NoMemory>
    ensures { IfOk result (ShowsAs Form.Insert blob.now) }
{
    match read_insert(alloc, blob) {
        Ok(payload) => insert_line(alloc, &payload),
        Err(refusal) => malformed_line(alloc, refusal),
    }
}

fn shown_equal(alloc: Global, blob: &[u8]) -> Result<Bytes, NoMemory>
    ensures { IfOk result (ShowsAs Form.Equal blob.now) }
{
    match read_equal(alloc, blob) {
        Ok(payload) => equal_line(alloc, &payload),
        Err(refusal) => malformed_line(alloc, refusal),
    }
}

fn shown_range(alloc: Global, blob: &[u8]) -> Result<Bytes, NoMemory>
    ensures { IfOk result (ShowsAs Form.Range blob.now) }
{
    match read_range(alloc, blob) {
        Ok(payload) => range_line(alloc, &payload),
        Err(refusal) => malformed_line(alloc, refusal),
    }
}

fn shown_indexed(alloc: Global, blob: &[u8]) -> Result<Bytes, NoMemory>
    ensures { IfOk result (ShowsAs Form.Indexed blob.now) }
{
    match IndexedValue::read(alloc, blob) {
        Ok(value) => indexed_line(alloc, &value),
        Err(IndexedFault::NoMemory) => Err(NoMemory),
        Err(fault) => {
            let kind = indexed_text(alloc, fault)?;
            refusal_line(alloc, b".", kind.slice())
        }
    }
}

#[tactic(auto, unfolding(crate::specs::Blob::indexed_line))]
fn indexed_line(alloc: Global, value: &IndexedValue) -> Result<Bytes, NoMemory>
    ensures { IfOk result (λ line. line ≡ indexed_line value.now) }
{
    let mut line = Bytes::from_slice(alloc, indexed_head(value.range).as_bytes())?;
    put_uuid(&mut line, "key", value.key_id)?;
    put_number(alloc, &mut line, "type", i64::from(value.value_kind))?;
    put_hex(alloc, &mut line, "value", value.server_value.slice())?;
    put_items(alloc, &mut line, value.blocks.slice())?;
    Ok(line)
}

fn indexed_head(range: bool) -> &'static str
    ensures { result.now ≡ indexed_head range }
{
    if range { "indexed 15" } else { "indexed 14" }
}

// The line of a refusal.
fn malformed_line(alloc: Global, refusal: Malformed) -> Result<Bytes, NoMemory>
    ensures { IfOk result (IsLineOf (refusal_of refusal)) }
{
    match refusal {
        Malformed::At { path, kind } => {
            let kind = kind_text(alloc, kind)?;
            refusal_line(alloc, path.as_str().as_bytes(), kind.slice())
        }
        Malformed::NoMemory => Err(NoMemory),
    }
}

#[tactic(auto, unfolding(crate::specs::Blob::refusal_line))]
fn refusal_line(alloc: Global, path: &[u8], kind: &[u8]) -> Result<Bytes, NoMemory>
    ensures { IfOk result (λ line. line ≡ refusal_line path.now kind.now) }
{
    let mut line = Bytes::from_slice(alloc, b"malformed ")?;
    line.extend(path)?;
    line.extend(b" ")?;
    line.extend(kind)?;
    Ok(line)
}
