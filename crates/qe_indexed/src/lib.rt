//! Indexed values of Queryable Encryption, version 2: what a server stores in the place of a plain value.
//!
//! ```
//! let value = IndexedValue::read(rt.alloc(), &bytes)?; // or the first refusal
//! let tag = value.tag(0); // by which a search finds the document
//! let (count, contention, is_own) = open_block(value.block(0), &server);
//! ```
//!
//! An `IndexedValue` is laid out after libmongocrypt's IndexedEqualityEncryptedValueV2 (first byte 14) or
//! IndexedRangeEncryptedValueV2 (first byte 15): a head, the server-encrypted value, and blocks of 96 bytes. Each
//! block has the tag by which a search finds the document, between its number and its zeros under the item's tokens.
//! Read: block, value, fault, reading, writing, laws; of `specs/`: Block, Parts, Spelling, Faults, Reading, Laws.
#![tactic(auto)]

mod block;
mod fault;
mod laws;
mod reading;
mod value;
mod writing;

pub use block::{Block, make_block, open_block};
pub use fault::IndexedFault;
pub use laws::{a_made_block_has_its_tag, bytes_are_one_value};
pub use value::{Blocks, IndexedValue};
