//! Schemas and their keys.

ghost use Rattle.std.specs.Prelude.{◌≡◌, All, length};
ghost use Rattle.qe_aes.specs.Laws.{IsBlock};
ghost use Rattle.qe_schema.specs.Lookup.{encrypted_numbers};
ghost use Rattle.qe_encodes.specs.Fields.{IsKey, IsKeyed, IsUnder};

use crate::values::are_bytes;
use qe_schema::{Field, FieldKind, Keys, Schema};

fn is_block(bytes: &[u8; 16])
    ensures { IsBlock bytes.now }
{
    are_bytes(bytes);
}

fn is_key(key: &[u8; 96])
    ensures { IsKey key.now }
{
    are_bytes(key);
}

fn is_keyed(kind: &FieldKind)
    ensures { IsKeyed kind.now }
{
    match kind {
        FieldKind::Plain => {}
        FieldKind::Equality { key_id, .. } => is_block(key_id),
        FieldKind::Range { key_id, domain, .. } => {
            is_block(key_id);
            let _bits = domain.bits();
        }
    }
}

fn are_keyed(fields: &[Field])
    ensures { All (λ field. IsKeyed field.kind) fields.now }
{
    for field in fields {
        is_keyed(&field.kind);
    }
}

fn are_keys(keys: &Keys)
    ensures { All IsKey keys.now }
{
    for i in 0..keys.len() {
        is_key(keys.key(i));
    }
}

/// A schema and a key for each of its encrypted fields are such as commands are encoded under: key ids have 16 bytes and
/// keys have 96, and the rules of each range field make a domain.
pub fn keys_serve_their_schema(schema: &Schema, keys: &Keys)
    requires { length keys.now ≡ length (encrypted_numbers schema.now) }
    ensures { IsUnder (record { schema = schema.now; keys = keys.now }) }
{
    are_keyed(schema.fields());
    are_keys(keys);
}
