//! Words and labels that come one after another, each tested to stand behind all others: for the programs that try the
//! list of labels.
//!
//! ```
//! let added = push_word(&mut counted, fields, word, 3)?; // false where it doesn't rise, or is of no such field
//! ```
//!
//! Read: words, labels.
#![tactic(auto)]

mod labels;
mod words;

pub use labels::push_label;
pub use words::push_word;
