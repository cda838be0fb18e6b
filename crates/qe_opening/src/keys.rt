//! What opens the values of a field.

ghost use Rattle.std.specs.Prelude.{◌≡◌, ◌<◌, ◌^◌, [], true, length, slice_index_or, IfOk};
ghost use Rattle.std.specs.Option.{option_copied};
ghost use Rattle.qe_field.specs.Lookup.{encrypted_numbers, is_encrypted};
ghost use Rattle.qe_opening.specs.Keys as spec;

use qe_base::{Listing, NoMemory};
use qe_field::is_encrypted;
use qe_schema::{FieldKind, Keys, Schema};
use qe_tokens::{ServerDataLevel1, root_key, server_cipher};
use std::alloc::Global;

/// What opens the values of an encrypted field.
#[derive(Clone, Copy)]
pub struct FieldKey {
    /// The data key.
    pub key: [u8; 96],
    /// Its id.
    pub key_id: [u8; 16],
    /// The key under which the server enciphers what was sent.
    pub cipher: ServerDataLevel1,
}

/// What opens the values of each field, by the fields' numbers; a plain field has none.
pub type OpeningKeys = Listing<Option<FieldKey>>;

impl FieldKey {
    /// What a data key and its id open.
    fn new(key: &[u8; 96], key_id: [u8; 16]) -> FieldKey
        ensures { result ≡ spec.field_key key.now key_id }
    {
        FieldKey {
            key: *key,
            key_id,
            cipher: server_cipher(&root_key(key)),
        }
    }
}

// What opens the values of a field that is kept so; the place is that of its key, where it has one.
fn key_in(keys: &Keys, place: usize, kind: &FieldKind) -> Option<FieldKey>
    requires { is_encrypted kind.now ≡ true → place < length keys.now }
    ensures { result ≡ spec.key_in (slice_index_or keys.now place []) kind.now }
{
    match kind {
        FieldKind::Plain => None,
        FieldKind::Equality { key_id, .. } | FieldKind::Range { key_id, .. } => {
            Some(FieldKey::new(keys.key(place), *key_id))
        }
    }
}

// The place of the next field's key.
fn place_after(place: usize, kind: &FieldKind) -> usize
    requires { place < 2 ^ 32 }
    ensures { result ≡ spec.place_after place kind.now }
{
    if is_encrypted(kind) {
        return place + 1;
    }
    place
}

/// What opens the values of a schema's fields. Keys stand in the order of the encrypted fields.
pub fn opening_keys(alloc: Global, schema: &Schema, keys: &Keys) -> Result<OpeningKeys, NoMemory>
    requires { length keys.now ≡ length (encrypted_numbers schema.now) }
    ensures { IfOk result (λ made. made ≡ spec.opening_keys (record { schema = schema.now; keys = keys.now })) }
{
    let mut made = OpeningKeys::new(alloc);
    let mut place = 0;
    for field in schema.fields() {
        made.push(key_in(keys, place, &field.kind))?;
        place = place_after(place, &field.kind);
    }
    Ok(made)
}

/// What opens the values of a field.
pub(crate) fn key_at(keys: &[Option<FieldKey>], field: u32) -> Option<&FieldKey>
    ensures { option_copied result ≡ spec.key_at keys.now field }
{
    match keys.get(field as usize) {
        Some(key) => key.as_ref(),
        None => None,
    }
}
