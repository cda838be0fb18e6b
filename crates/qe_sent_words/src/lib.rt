//! The words of a command: those of the values that it stores, and those that its filter looks for.
//!
//!     let indexed = stored_words(alloc, &keyring, &plain, &command)?; // under the factor that was sent with each value
//!     let asked = sought_words(alloc, &keyring, &plain, &command)?; // under each factor up to the one that was sent
//!
//! A word is an item of a field under a contention factor. Contracts cite qe_encodes' `stored_words` and `sought_words`. Read:
//! items, push, words.
#![tactic(auto)]

mod items;
mod push;
mod words;

pub use words::{sought_words, stored_words};
