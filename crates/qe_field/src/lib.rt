//! Fields: how each one of a document's names is kept, and the fields that a schema's document describes.
//!
//!     let fields = read_fields(alloc, &document)?; // the fields, or the first fault
//!     let (number, kind) = known(fields.slice(), "age")?;
//!
//! An encrypted field is searched for equality or for intervals. Read: field, fault, values, names, lookup, shape, reading.
#![tactic(auto)]

mod fault;
mod field;
mod lookup;
mod names;
mod reading;
mod shape;
mod values;

pub use fault::SchemaFault;
pub use field::{Field, FieldKind};
pub use lookup::{encrypted_numbers, greatest_of, is_encrypted, known, number_with, path_of};
pub use names::{is_path, is_reserved};
pub use reading::read_fields;
pub use values::{elements_in, is_id, items_in, number_in, text_in};
