//! The rows that a compaction or cleanup works through (ECOC).
//!
//! ```
//! rows.reserve(1)?;
//! rows.add(Entry { field: 0, value: Cipher::from_bytes(p)? });
//! let opened = open_entry(rows.entry(0), &token); // the token of a word's rows, and whether it is a leaf's
//! ```
//!
//! A row has the field that it is of, and the cipher of a token. It has 48 bytes, or 49 where a byte behind the token
//! says whether the word is an edge at the leaf level. Contracts see an `Ecoc` as a list and the room that is left.
//! Read: forms, opening, rows, laws.
#![tactic(auto)]

mod forms;
mod laws;
mod opening;
mod rows;

pub use forms::Cipher;
pub use laws::opens_what_is_written;
pub use opening::{Opened, make_cipher, open_entry};
pub use rows::{Ecoc, Entries, Entry};
