//! A place for each field.

ghost use Rattle.std.specs.Prelude.{◌≡◌, IfOk};
ghost use Rattle.qe_resolve.specs.Slots as slots;

use qe_base::NoMemory;
use qe_field::Field;
use std::alloc::Global;

/// An empty place for each field.
pub(crate) fn empty_slots<T: Drop>(
    alloc: Global,
    fields: &[Field],
) -> Result<Vec<Option<T>>, NoMemory>
    ensures { IfOk result (λ made. made.items ≡ slots.empty_slots fields.now) }
{
    let mut made = Vec::new(alloc);
    for _field in fields {
        made.push(None)?;
    }
    Ok(made)
}
