//! Values as bytes, whatever their length (bsonspec.org, BSON 1.1).

ghost use Rattle.std.specs.Prelude.{◌≡◌, true, IfOk};
ghost use Rattle.std.specs.Int.{w32, to_le_bytes};
ghost use Rattle.qe_value.specs.Spelling.{string as string_bytes, binary as binary_bytes};
ghost use Rattle.qe_value.specs.Views.{plain};
ghost use Rattle.qe_field.specs.Schema.{is_value_kind};
ghost use Rattle.qe_field.specs.Values.{kind_of};
ghost use Rattle.qe_encodes.specs.Items.{bytes_of as bytes_under};

use qe_base::{Bytes, NoMemory, bytes_of};
use qe_document::Value;
use std::alloc::Global;

/// The number of values of 32 bits.
const WORDS: u64 = 1 << 32;

// A length as 4 bytes, its lowest first.
fn length_bytes(length: u64) -> [u8; 4]
    ensures { result ≡ to_le_bytes w32 length }
{
    ((length % WORDS) as u32).to_le_bytes()
}

fn string(alloc: Global, text: &str) -> Result<Bytes, NoMemory>
    ensures { IfOk result (λ bytes. bytes ≡ string_bytes text.now) }
{
    let mut bytes = Bytes::new(alloc);
    bytes.extend(bytes_of(&length_bytes(text.len() as u64 + 1)))?;
    bytes.extend(text.as_bytes())?;
    bytes.push(0)?;
    Ok(bytes)
}

fn binary(alloc: Global, subtype: u8, content: &[u8]) -> Result<Bytes, NoMemory>
    ensures { IfOk result (λ bytes. bytes ≡ binary_bytes subtype content.now) }
{
    let mut bytes = Bytes::new(alloc);
    bytes.extend(bytes_of(&length_bytes(content.len() as u64)))?;
    bytes.push(subtype)?;
    bytes.extend(content)?;
    Ok(bytes)
}

/// The bytes of a value that a field may encrypt, as they stand behind its name in a document.
#[tactic(auto, using(qe_encode::proofs::WriteLemmas::spell_plain))]
pub fn spelled_bytes(alloc: Global, value: &Value) -> Result<Bytes, NoMemory>
    requires { is_value_kind (kind_of (plain value.now)) ≡ true }
    ensures { IfOk result (λ bytes. bytes ≡ bytes_under (plain value.now)) }
{
    match value {
        Value::Str(text) => string(alloc, text.as_str()),
        Value::Binary { subtype, bytes } => binary(alloc, *subtype, bytes.slice()),
        Value::ObjectId(bytes) => Bytes::from_slice(alloc, bytes_of(bytes)),
        Value::Bool(b) => Bytes::from_slice(alloc, bytes_of(&[*b as u8])),
        Value::Date(n) => Bytes::from_slice(alloc, bytes_of(&n.to_le_bytes())),
        Value::Int32(n) => Bytes::from_slice(alloc, bytes_of(&n.to_le_bytes())),
        Value::Int64(n) => Bytes::from_slice(alloc, bytes_of(&n.to_le_bytes())),
        _ => unreachable!(),
    }
}
