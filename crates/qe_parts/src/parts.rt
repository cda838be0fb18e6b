//! What stands under the names of payloads, and how it is taken out of a slot.

ghost use Rattle.std.specs.Prelude.{◌≡◌};
ghost use Rattle.qe_document.specs.Views.{plain};
ghost use Rattle.qe_layout.specs.Refusal.{Reads};
ghost use Rattle.qe_parts.specs.Parts as parts;

use crate::edges::{EdgeList, FindEdges, Inner};
use qe_base::Bytes;
use qe_document::Value;
use qe_ecoc::Cipher;
use qe_layout::{Carried, Kind, Malformed, bytes, fixed, int32, natural, refuse};
use std::alloc::Global;

/// The length of a token, in bytes.
const TOKEN_LEN: usize = 32;

/// The length of a key's id.
const KEY_ID_LEN: usize = 16;

/// The least length of a key's id and a sealed value.
const LEAST_SEALED: usize = 80;

/// The subtype of binaries of bytes.
pub const GENERIC: u8 = 0;

/// The subtype of ids.
pub const UUID: u8 = 4;

/// What is read under a name of a payload.
#[derive(Drop)]
pub enum Part {
    /// A token.
    Token([u8; 32]),
    /// An IV and a ciphered token.
    Cipher(Cipher),
    /// The id of a key.
    KeyId([u8; 16]),
    /// The id of a key and a sealed value.
    Sealed(Bytes),
    /// An int32.
    Int32(i32),
    /// A number of 0 or more.
    Number(i64),
    /// A value that is carried unread.
    Carried(Carried),
    /// The edges of an insert.
    Edges(EdgeList),
    /// The edges of a find.
    FindEdges(FindEdges),
    /// The inner document of a find.
    Inner(Inner),
}

/// A token.
pub fn token(alloc: Global, name: &str, value: Value) -> Result<Part, Malformed>
    ensures { Reads result (parts.token name.now (plain value)) }
{
    Ok(Part::Token(fixed::<TOKEN_LEN>(alloc, name, value, GENERIC)?))
}

/// An IV and a ciphered token, without or with a leaf byte.
pub fn cipher(alloc: Global, name: &str, value: Value) -> Result<Part, Malformed>
    ensures { Reads result (parts.cipher name.now (plain value)) }
{
    let bytes = bytes(alloc, name, value, GENERIC, 0)?;
    match Cipher::from_bytes(bytes.slice()) {
        Some(cipher) => Ok(Part::Cipher(cipher)),
        None => refuse(alloc, name, Kind::WrongLength(bytes.len() as u64)),
    }
}

/// The id of a key.
pub fn key_id(alloc: Global, name: &str, value: Value) -> Result<Part, Malformed>
    ensures { Reads result (parts.key_id name.now (plain value)) }
{
    Ok(Part::KeyId(fixed::<KEY_ID_LEN>(alloc, name, value, UUID)?))
}

/// The id of a key and a sealed value.
pub fn sealed(alloc: Global, name: &str, value: Value) -> Result<Part, Malformed>
    ensures { Reads result (parts.sealed name.now (plain value)) }
{
    Ok(Part::Sealed(bytes(alloc, name, value, GENERIC, LEAST_SEALED)?))
}

/// An int32.
pub fn whole(alloc: Global, name: &str, value: Value) -> Result<Part, Malformed>
    ensures { Reads result (parts.whole name.now (plain value)) }
{
    Ok(Part::Int32(int32(alloc, name, value)?))
}

/// A number of 0 or more.
pub fn number(alloc: Global, name: &str, value: Value) -> Result<Part, Malformed>
    ensures { Reads result (parts.number name.now (plain value)) }
{
    Ok(Part::Number(natural(alloc, name, value)?))
}

/// The operator of its place.
pub fn operator(alloc: Global, name: &str, value: Value, wanted: i32) -> Result<Part, Malformed>
    ensures { Reads result (parts.operator wanted name.now (plain value)) }
{
    match value {
        Value::Int32(number) => {
            if number == wanted {
                Ok(Part::Int32(number))
            } else {
                refuse(alloc, name, Kind::ProfileOperator)
            }
        }
        _ => refuse(alloc, name, Kind::WrongType),
    }
}

/// A value that is carried unread.
pub fn carried(name: &str, value: Value) -> Result<Part, Malformed>
    ensures { Reads result (parts.carried name.now (plain value)) }
{
    let _ = name;
    Ok(Part::Carried(Carried::new(value)))
}

/// The token in a slot.
pub fn token_in(slot: Option<Part>) -> [u8; 32]
    ensures { result ≡ parts.token_in slot }
{
    match slot {
        Some(Part::Token(token)) => token,
        _ => [0; TOKEN_LEN],
    }
}

/// The IV and the ciphered token in a slot.
pub fn cipher_in(slot: Option<Part>) -> Cipher
    ensures { result ≡ parts.cipher_in slot }
{
    match slot {
        Some(Part::Cipher(cipher)) => cipher,
        _ => Cipher::Old([0; 48]),
    }
}

/// The id in a slot.
pub fn key_id_in(slot: Option<Part>) -> [u8; 16]
    ensures { result ≡ parts.key_id_in slot }
{
    match slot {
        Some(Part::KeyId(id)) => id,
        _ => [0; KEY_ID_LEN],
    }
}

/// The id and the sealed value in a slot.
pub fn sealed_in(alloc: Global, slot: Option<Part>) -> Bytes
    ensures { result ≡ parts.sealed_in slot }
{
    match slot {
        Some(Part::Sealed(bytes)) => bytes,
        _ => Bytes::new(alloc),
    }
}

/// The int32 in a slot.
pub fn whole_in(slot: Option<Part>) -> i32
    ensures { result ≡ parts.whole_in slot }
{
    match slot {
        Some(Part::Int32(number)) => number,
        _ => 0,
    }
}

/// The number in a slot.
pub fn number_in(slot: Option<Part>) -> i64
    ensures { result ≡ parts.number_in slot }
{
    match slot {
        Some(Part::Number(number)) => number,
        _ => 0,
    }
}
