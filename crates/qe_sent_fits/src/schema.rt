//! A schema's fields, and what their types tell of them.

ghost use Rattle.std.specs.Prelude.{◌≡◌, All, length};
ghost use Rattle.qe_aes.specs.Laws.{IsBlock};
ghost use Rattle.qe_encodes.specs.Fields.{IsKeyed};

use qe_field::{Field, FieldKind};
use qe_held::are_bytes;

fn is_block(bytes: &[u8; 16])
    ensures { IsBlock bytes.now }
{
    are_bytes(bytes);
}

fn is_keyed(kind: &FieldKind)
    ensures { IsKeyed kind.now }
{
    match kind {
        FieldKind::Plain => {}
        FieldKind::Equality { key_id, .. } => is_block(key_id),
        FieldKind::Range { key_id, domain, .. } => {
            is_block(key_id);
            let _bits = domain.bits();
        }
    }
}

/// Key ids have 16 bytes, and the rules of range fields make domains.
pub(crate) fn are_keyed(fields: &[Field])
    ensures { All (λ field. IsKeyed field.kind) fields.now }
{
    for field in fields {
        is_keyed(&field.kind);
    }
}
