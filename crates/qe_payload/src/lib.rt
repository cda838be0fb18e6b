//! Payloads of Queryable Encryption, version 2: what a client sends in the place of a plain value.
//!
//! ```text
//! let blob = write_equal(alloc, &payload)?;
//! let again = read_equal(alloc, blob.slice())?;
//! assert_eq!(rt; again, payload);
//! ```
//!
//! A blob is one byte that says its kind, and one BSON document. A reader answers a payload exactly where the blob is
//! laid out as one, with its elements in any order, and else the first refusal and its path: the elements in the order
//! in which they stand, each by its name and value alone, and then the names that aren't there. A kind is one table of
//! qe_layout: qe_insert has that of inserts, qe_find those of finds, over the parts of qe_parts. This crate hands all of
//! it on.
#![tactic(auto)]

mod laws;

pub use laws::{payload_laws, what_is_read, what_is_read_fits, written_lengths};
pub use qe_ecoc::Cipher;
pub use qe_find::{FindEqual, FindRange, read_equal, read_range, write_equal, write_range};
pub use qe_insert::{InsertPayload, read_insert, write_insert};
pub use qe_layout::{Kind, Malformed};
pub use qe_parts::{EdgeList, EdgeTokens, FindEdge, FindEdges};
