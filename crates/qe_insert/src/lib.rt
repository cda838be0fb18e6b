//! Insert payloads: what a client sends to insert or to set a value (InsertUpdatePayloadV2).
//!
//! ```text
//! let blob = write_insert(alloc, &payload)?;
//! let again = read_insert(alloc, blob.slice())?;
//! ```
//!
//! A blob is the byte 11 and one document, whose table has the value's tokens, the sealed value, the edges of a range and
//! what is carried unread. Read: insert, insert_written, laws.
#![tactic(auto)]

mod insert;
mod insert_written;
mod laws;

pub use insert::{InsertPayload, read_insert};
pub use insert_written::write_insert;
pub use laws::insert_laws;
