//! What stands in a field of a document.

ghost use Rattle.std.specs.Prelude.{◌≤◌, length};
ghost use Rattle.qe_document.specs.Views.{plain};
ghost use Rattle.qe_layout.specs.Refusal.{Reads};
ghost use Rattle.qe_field.specs.Lookup.{known};
ghost use Rattle.qe_command_parts.specs.Fields as in_fields;

use crate::payloads::{Wanted, insert_under};
use qe_command::SentCell;
use qe_document::Value;
use qe_field::{Field, FieldKind, is_encrypted, is_id, known};
use qe_layout::{Kind, Malformed, refuse};
use std::alloc::Global;

/// A document's id: a value that may be one, or a refusal at a name.
#[tactic(auto, using(crate::proofs::ValueLemmas::value_again))]
pub fn id(alloc: Global, name: &str, value: Value) -> Result<Value, Malformed>
    ensures { Reads result (in_fields.id_reads name.now (plain value)) }
{
    if !is_id(&value) {
        return refuse(alloc, name, Kind::WrongType);
    }
    Ok(value)
}

/// What sets a field of a kind: a plain value as it is, or the payload of a binary of subtype 6; refused at a name
/// where it is no payload of the kind, with the key's id and a contention factor up to the greatest.
#[tactic(auto, using(crate::proofs::ValueLemmas::value_again))]
pub fn sent(
    alloc: Global,
    name: &str,
    value: Value,
    kind: &FieldKind,
) -> Result<SentCell, Malformed>
    ensures { Reads result (in_fields.sent_reads kind.now name.now (plain value)) }
{
    match kind {
        FieldKind::Plain => Ok(SentCell::Plain(value)),
        FieldKind::Equality {
            key_id,
            value_kind,
            greatest,
            ..
        } => {
            let wanted = Wanted {
                range: false,
                key_id: *key_id,
                kind: *value_kind,
                greatest: *greatest,
            };
            Ok(SentCell::Payload(insert_under(alloc, name, value, &wanted)?))
        }
        FieldKind::Range {
            key_id,
            value_kind,
            greatest,
            ..
        } => {
            let wanted = Wanted {
                range: true,
                key_id: *key_id,
                kind: *value_kind,
                greatest: *greatest,
            };
            Ok(SentCell::Payload(insert_under(alloc, name, value, &wanted)?))
        }
    }
}

/// The encrypted field of a path, with its number; a refusal at a name where the schema has none.
pub fn encrypted(
    alloc: Global,
    fields: &[Field],
    name: &str,
    path: &str,
) -> Result<(u32, FieldKind), Malformed>
    requires { length fields.now ≤ 64 }
    ensures { Reads result (in_fields.encrypted_among name.now (known fields.now path.now)) }
{
    match known(fields, path) {
        Some((number, kind)) if is_encrypted(&kind) => Ok((number, kind)),
        _ => refuse(alloc, name, Kind::NotInSchema),
    }
}
