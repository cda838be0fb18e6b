//! Blobs as lines of text: payloads that travel, and indexed values that are stored.
//!
//! `show` reads lines of hex digits and prints a line for each: its parts by name, or the first refusal and its path.
//! Read: lines, blob, payloads, parts, kinds; the definitions in `specs/` stand in the same order.
//!
//!     show(alloc, b"0a00\n")?; // "malformed . BlobSubtype 10\n"
//!     show(alloc, b"0c05\n")?; // "malformed . Bson Short 1\n"
//!     show(alloc, b"zz\n"); // Err(ShowFault::NotHex { line: 1 })
#![tactic(auto)]

mod blob;
mod kinds;
mod lines;
mod parts;
mod payloads;

pub use lines::{ShowFault, show};
