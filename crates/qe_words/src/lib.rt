//! The words behind the program's name, and what they ask for.
//!
//!     read_words(&words)?; // of `make 1000 7`: Words::Make { documents: 1000, seed: 7 }
//!
//! Numbers are decimal digits without a sign or a leading zero, so each task has one spelling. Read: words, laws.
#![tactic(auto)]

mod laws;
mod words;

pub use laws::tasks_have_one_spelling;
pub use words::{BadWords, Words, read_words};
