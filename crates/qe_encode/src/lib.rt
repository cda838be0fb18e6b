//! Documents and values of BSON 1.1 (bsonspec.org), written.
//!
//!     let bytes = encode(alloc, &document)?; // the document's bytes, which are read as the document again
//!     let blob = encode_behind(alloc, 11, &document)?; // a byte 11, and then the same bytes
//!
//! A document is refused that has more than 16,777,216 bytes or 100 levels, or a byte 0 in a name. Read: writing, laws.
#![tactic(auto)]

mod laws;
mod writing;

pub use laws::{lengths_are_sums, what_fits_is_written};
pub use writing::{encode, encode_behind, value_bytes, value_kind};
