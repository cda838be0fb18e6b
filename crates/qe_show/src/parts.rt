//! The parts of a line.

ghost use Rattle.std.specs.Prelude.{◌≡◌, ◌++◌, ◌∷◌, [], ℕ, List, string_bytes, IfOk, OnOk};
ghost use Rattle.qe_document.specs.Spelling.{spelled, IsDocument};
ghost use Rattle.qe_document.specs.Views.{plain};
ghost use Rattle.qe_show.specs.Parts.{named, hex_part, number_part, uuid_part, token_part, parts_from, carried_text, carried_parts};
ghost use Rattle.qe_show.specs.Payloads.{AreWritable};

use qe_base::{Bytes, NoMemory};
use qe_document::{Document, EncodeFault, Value, value_bytes, value_kind};
use std::alloc::Global;
use uuid::Uuid;

/// An item of a list, which is shown by its place.
pub trait Item {
    /// The parts that show the item at a place, counted from 0.
    ghost part: { ℕ → Self → List ℕ };

    /// Adds the item's parts.
    fn put(&self, alloc: Global, line: &mut Bytes, place: usize) -> Result<(), NoMemory>
        ensures { OnOk result (line.new ≡ line.old ++ part place self.now) };
}

/// Adds ` NAME=TEXT`.
#[tactic(auto, unfolding(crate::specs::Parts::named))]
pub fn put(line: &mut Bytes, name: &str, text: &str) -> Result<(), NoMemory>
    ensures { OnOk result (line.new ≡ line.old ++ named name.now text.now) }
{
    line.extend(b" ")?;
    line.extend(name.as_bytes())?;
    line.extend(b"=")?;
    line.extend(text.as_bytes())?;
    Ok(())
}

/// Adds bytes in hex digits.
pub fn put_hex(alloc: Global, line: &mut Bytes, name: &str, bytes: &[u8]) -> Result<(), NoMemory>
    ensures { OnOk result (line.new ≡ line.old ++ hex_part name.now bytes.now) }
{
    let digits = hex::encode(alloc, bytes)?;
    put(line, name, digits.as_str())
}

/// Adds a number in decimal.
pub fn put_number(alloc: Global, line: &mut Bytes, name: &str, number: i64) -> Result<(), NoMemory>
    ensures { OnOk result (line.new ≡ line.old ++ number_part name.now number) }
{
    let digits = format!(in alloc; "{number}")?;
    put(line, name, digits.as_str())
}

/// Adds a key's id as a UUID.
pub fn put_uuid(line: &mut Bytes, name: &str, id: [u8; 16]) -> Result<(), NoMemory>
    ensures { OnOk result (line.new ≡ line.old ++ uuid_part name.now id) }
{
    let mut buffer = Uuid::encode_buffer();
    let text = Uuid::from_bytes(id).hyphenated().encode_lower(&mut buffer);
    put(line, name, text)
}

/// Adds a token of the edge at a place.
pub fn put_token(
    alloc: Global,
    line: &mut Bytes,
    place: usize,
    name: &str,
    token: &[u8],
) -> Result<(), NoMemory>
    ensures { OnOk result (line.new ≡ line.old ++ token_part place name.now token.now) }
{
    let name = format!(in alloc; "g{place}.{name}")?;
    put_hex(alloc, line, name.as_str(), token)
}

/// Adds the items' parts, one after another.
pub fn put_items<T: Item>(alloc: Global, line: &mut Bytes, items: &[T]) -> Result<(), NoMemory>
    ensures { OnOk result (line.new ≡ line.old ++ parts_from T.part 0 items.now) }
{
    for i in 0..items.len() {
        items[i].put(alloc, line, i)?;
    }
    Ok(())
}

/// Adds what is carried unread, each value with its type.
pub fn put_carried(alloc: Global, line: &mut Bytes, extra: &Document) -> Result<(), NoMemory>
    requires { AreWritable extra.now }
    ensures { OnOk result (line.new ≡ line.old ++ carried_parts extra.now) }
{
    for i in 0..extra.len() {
        let text = carried_text(alloc, extra.value(i))?;
        put(line, extra.name(i), text.as_str())?;
    }
    Ok(())
}

#[tactic(auto, unfolding(crate::specs::Parts::carried_text))]
fn carried_text(alloc: Global, value: &Value) -> Result<String, NoMemory>
    requires { IsDocument (([], plain value.now) ∷ []) }
    ensures { IfOk result (λ text. string_bytes text ≡ carried_text (plain value.now)) }
{
    let kind = hex::encode(alloc, [value_kind(value)])?;
    let bytes = bytes_of(alloc, value)?;
    let digits = hex::encode(alloc, bytes.slice())?;
    let text = format!(in alloc; "{kind}:{digits}")?;
    Ok(text)
}

// The bytes of a value, which fits.
fn bytes_of(alloc: Global, value: &Value) -> Result<Bytes, NoMemory>
    requires { IsDocument (([], plain value.now) ∷ []) }
    ensures { IfOk result (λ bytes. bytes ≡ (spelled (plain value.now)).bytes) }
{
    match value_bytes(alloc, value) {
        Ok(bytes) => Ok(bytes),
        Err(fault) => {
            prove!(matches!(&fault, EncodeFault::NoMemory));
            Err(NoMemory)
        }
    }
}
