//! The key by which an id is found.

ghost use Rattle.std.specs.Prelude.{◌≡◌};
ghost use Rattle.qe_store.specs.IdHash.{key_hash, key_of};

use qe_base::write_at;
use qe_document::Value;
use std::hash::{DefaultHasher, Hash, Hasher};

// The hash of an id's type and bytes.
#[tactic(auto, unfolding(crate::specs::IdHash::key_hash, crate::specs::IdHash::key_input))]
fn hash_of(id: &Value) -> u64
    ensures { result ≡ key_hash id.now }
{
    let mut state = DefaultHasher::new();
    match id {
        Value::Double(bytes) => {
            state.write_u8(1);
            bytes.hash(&mut state);
        }
        Value::Str(text) => {
            state.write_u8(2);
            text.as_str().hash(&mut state);
        }
        Value::Doc(document) => {
            state.write_u8(3);
            state.write_usize(document.len());
        }
        Value::Array(items) => {
            state.write_u8(4);
            state.write_usize(items.len());
        }
        Value::Binary { subtype, bytes } => {
            state.write_u8(5);
            state.write_u8(*subtype);
            bytes.slice().hash(&mut state);
        }
        Value::ObjectId(bytes) => {
            state.write_u8(7);
            bytes.hash(&mut state);
        }
        Value::Bool(b) => {
            state.write_u8(8);
            b.hash(&mut state);
        }
        Value::Date(n) => {
            state.write_u8(9);
            n.hash(&mut state);
        }
        Value::Null => state.write_u8(10),
        Value::Int32(n) => {
            state.write_u8(16);
            n.hash(&mut state);
        }
        Value::Timestamp(n) => {
            state.write_u8(17);
            n.hash(&mut state);
        }
        Value::Int64(n) => {
            state.write_u8(18);
            n.hash(&mut state);
        }
        Value::Decimal(bytes) => {
            state.write_u8(19);
            bytes.hash(&mut state);
        }
    }
    state.finish()
}

/// The key of an id: equal ids have equal keys.
#[tactic(auto, unfolding(crate::specs::IdHash::key_of))]
pub(crate) fn key_of(id: &Value) -> [u8; 32]
    ensures { result ≡ key_of id.now }
{
    let mut key = [0; 32];
    write_at(&mut key, 0, &hash_of(id).to_be_bytes());
    key
}
