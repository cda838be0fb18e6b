//! The field that has a name, and its number.

ghost use Rattle.std.specs.Prelude.{◌≡◌, ◌<◌, ◌≤◌, IfOk, IfSome, length};
ghost use Rattle.qe_field.specs.Lookup as lookup;

use crate::field::{Field, FieldKind};
use qe_base::{Listing, NoMemory};
use std::alloc::Global;

/// The number and the kind of the field with a path.
pub fn known(fields: &[Field], path: &str) -> Option<(u32, FieldKind)>
    requires { length fields.now ≤ 64 }
    ensures exact { result ≡ lookup.known fields.now path.now }
    ensures within { IfSome result (λ found. found.0 < length fields.now) }
{
    for i in 0..fields.len() {
        if path == fields[i].path.as_str() {
            return Some((i as u32, fields[i].kind));
        }
    }
    None
}

/// The number of the field with a path.
pub fn number_with(fields: &[Field], path: &str) -> Option<u32>
    requires { length fields.now ≤ 64 }
    ensures exact { result ≡ lookup.number_with fields.now path.now }
    ensures within { IfSome result (λ i. i < length fields.now) }
{
    match known(fields, path) {
        Some((number, _)) => Some(number),
        None => None,
    }
}

/// The path of the field of a number; it is empty where there is no field of the number.
pub fn path_of(fields: &[Field], number: u32) -> &str
    ensures { result.now ≡ lookup.path_of fields.now number }
{
    match fields.get(number as usize) {
        Some(field) => field.path.as_str(),
        None => "",
    }
}

/// Whether fields of the kind are encrypted.
pub fn is_encrypted(kind: &FieldKind) -> bool
    ensures { result ≡ lookup.is_encrypted kind.now }
{
    match kind {
        FieldKind::Plain => false,
        _ => true,
    }
}

/// The greatest contention of an encrypted field.
pub fn greatest_of(kind: &FieldKind) -> u64
    ensures { result ≡ lookup.greatest_of kind.now }
{
    match kind {
        FieldKind::Plain => 0,
        FieldKind::Equality { greatest, .. } | FieldKind::Range { greatest, .. } => *greatest,
    }
}

/// The numbers of the encrypted fields, in order.
pub fn encrypted_numbers(alloc: Global, fields: &[Field]) -> Result<Listing<u32>, NoMemory>
    requires { length fields.now ≤ 64 }
    ensures exact { IfOk result (λ numbers. numbers ≡ lookup.encrypted_numbers fields.now) }
{
    let mut numbers = Listing::new(alloc);
    for i in 0..fields.len() {
        if is_encrypted(&fields[i].kind) {
            numbers.push(i as u32)?;
        }
    }
    Ok(numbers)
}
