//! Documents of BSON 1.1 (bsonspec.org), read and written; with all of qe_value's values.
//!
//!     let (document, length) = decode(alloc, bytes)?; // the document that begins the bytes
//!     let age = document.get("age");
//!     let again = encode(alloc, &document)?; // its `length` bytes
//!
//! `decode` gives the document that begins some bytes exactly where the grammar of qe_value's `specs/Spelling` relates
//! them, and else the first fault; `encode` writes what `decode` reads again. Read: element, names, reading; qe_value, qe_encode.
#![tactic(auto)]

mod element;
mod names;
mod reading;

pub use qe_encode::{
    encode, encode_behind, lengths_are_sums, value_bytes, value_kind, what_fits_is_written,
};
pub use qe_value::{
    BsonFault, BsonKind, Carried, Document, ElementType, EncodeFault, MOST_BYTES, MOST_LEVELS,
    Plain, PushFault, Value, Values, what_begins_bytes_is_read, what_spells_a_value_is_read,
};
pub use reading::{decode, value_from};
