//! Values and documents of BSON 1.1 (bsonspec.org), of the types that the project uses, and the grammar of their bytes.
//!
//!     let mut document = Document::new(alloc);
//!     document.push(Text::of(alloc, "age")?, Value::Int32(7))?; // no name stands in it twice
//!     let age = document.get("age");
//!
//! `specs/Spelling` relates documents and bytes, `specs/Reading` gives what bytes are read as, or the first fault, and
//! the laws say that they agree. qe_encode writes; qe_document reads, and hands on both. A document has at most
//! 16,777,216 bytes and 100 levels. Read: value, carried, fault, element_type, limits, bounds, equal, laws.
#![tactic(auto)]

mod bounds;
mod carried;
mod element_type;
mod equal;
mod fault;
mod laws;
mod limits;
mod value;

pub use bounds::{has_zero, is_within, value_has_zero, value_within};
pub use carried::Carried;
pub use element_type::ElementType;
pub use fault::{BsonFault, BsonKind, EncodeFault, PushFault};
pub use laws::{what_begins_bytes_is_read, what_spells_a_value_is_read};
pub use limits::{MOST_BYTES, MOST_LEVELS};
pub use value::{Document, Plain, Value, Values, has_name};
