//! The dump of what the server keeps: a text with a line for each row, identifier and document.
//!
//! ```
//! put_rows(alloc, &mut text, esc.rows()?.slice())?; // "p ID" or "a ID VALUE"
//! put_document(alloc, &mut text, fields, stored)?; // "doc ID", "f PATH BYTES", "t TAG"
//! ```
//!
//! Bytes are lower-case hex digits, numbers are decimal, and each line ends with a line feed.
//! Read: lines, rows, work, documents; of `specs/`: Dump.
#![tactic(auto)]

mod documents;
mod lines;
mod rows;
mod work;

pub use documents::put_document;
pub use rows::{put_entries, put_ids, put_rows};
pub use work::{put_contentions, put_job, put_last};
