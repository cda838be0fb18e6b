//! The root keys of a schema's fields.

ghost use Rattle.std.specs.Prelude.{◌≡◌, length, IfOk};
ghost use Rattle.qe_field.specs.Lookup.{encrypted_numbers};
ghost use Rattle.qe_census.specs.Roots.{roots_from};

use qe_base::NoMemory;
use qe_field::is_encrypted;
use qe_schema::{Keys, Schema};
use qe_tokens::{RootKey, root_key};
use std::alloc::Global;

/// The root keys of a schema's fields, by number: that of an encrypted field's key, and zeros for a plain one.
pub fn roots_of(alloc: Global, schema: &Schema, keys: &Keys) -> Result<Vec<RootKey>, NoMemory>
    requires { length keys.now ≡ length (encrypted_numbers schema.now) }
    ensures { IfOk result (λ roots. roots.items ≡ roots_from keys.now 0 schema.now) }
{
    let fields = schema.fields();
    let mut roots = Vec::with_capacity(alloc, fields.len())?;
    let mut place = 0;
    for field in fields {
        if is_encrypted(&field.kind) {
            roots.push(root_key(keys.key(place)))?;
            place += 1;
        } else {
            roots.push(RootKey([0; 32]))?;
        }
    }
    Ok(roots)
}
