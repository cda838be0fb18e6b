//! One line.

ghost use Rattle.std.specs.Prelude.{◌≡◌, ◌++◌, codes, OnOk, IfOk, string_bytes};
ghost use Rattle.qe_dump.specs.Dump as dump;

use qe_base::{Bytes, NoMemory};
use qe_field::Field;
use std::alloc::Global;

/// Adds a line of a word and a text.
pub(crate) fn put_line(out: &mut Bytes, word: &str, text: &str) -> Result<(), NoMemory>
    ensures { OnOk result (out.new ≡ out.old ++ dump.line word.now text.now) }
{
    out.extend(word.as_bytes())?;
    out.extend(b" ")?;
    out.extend(text.as_bytes())?;
    out.extend(b"\n")?;
    Ok(())
}

/// Two texts with a space between them.
pub(crate) fn spaced(alloc: Global, first: &str, second: &str) -> Result<String, NoMemory>
    ensures { IfOk result (λ text. string_bytes text ≡ dump.spaced first.now second.now) }
{
    Ok(format!(in alloc; "{first} {second}")?)
}

/// The path of a field; it is empty where there is no field of the number.
pub(crate) fn path_of(fields: &[Field], number: u32) -> &str
    ensures { result.now ≡ dump.path_of fields.now number }
{
    match fields.get(number as usize) {
        Some(field) => field.path.as_str(),
        None => "",
    }
}
