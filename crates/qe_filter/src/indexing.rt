//! Fields that have to be there, or to be encrypted.

ghost use Rattle.std.specs.Prelude.{◌≡◌, ◌<◌, ◌≤◌, IfOk, length};
ghost use Rattle.qe_base.specs.Answers.{Answers};
ghost use Rattle.qe_field.specs.Judgements.{some_or};
ghost use Rattle.qe_field.specs.Lookup.{known as known_under};
ghost use Rattle.qe_filter.specs.Faults.{plain_refusal};
ghost use Rattle.qe_filter.specs.Indexed.{indexed as indexed_under};
ghost use Rattle.qe_filter.specs.declared.fault.PlainFault.TheVariants as f;

use crate::fault::PlainFault;
use qe_base::Text;
use qe_field::{Field, FieldKind, is_encrypted, known};
use std::alloc::Global;

/// The number and the kind of a field that has to be there.
pub fn known_or(alloc: Global, fields: &[Field], path: &str) -> Result<(u32, FieldKind), PlainFault>
    requires { length fields.now ≤ 64 }
    ensures exact { Answers (λ it. it) plain_refusal result (some_or (f.UnknownField path.now) (known_under fields.now path.now)) }
    ensures within { IfOk result (λ found. found.0 < length fields.now) }
{
    match known(fields, path) {
        Some(found) => Ok(found),
        None => Err(PlainFault::UnknownField(Text::of(alloc, path)?)),
    }
}

/// A field that has to be there and encrypted.
pub fn indexed(alloc: Global, fields: &[Field], path: &str) -> Result<(u32, FieldKind), PlainFault>
    requires { length fields.now ≤ 64 }
    ensures exact { Answers (λ it. it) plain_refusal result (indexed_under fields.now path.now) }
    ensures within { IfOk result (λ found. found.0 < length fields.now) }
{
    let found = known_or(alloc, fields, path)?;
    if !is_encrypted(&found.1) {
        return Err(PlainFault::NotIndexed(Text::of(alloc, path)?));
    }
    Ok(found)
}
