//! The words of a line that the programs of vectors read, each a kind and numbers behind commas, and numbers that they print.
//!
//!     numbers_of::<2>("l,7,1")?; // [7, 1], of a word of the kind `l`
//!
//! Read: words, numbers.
#![tactic(auto)]

mod numbers;
mod words;

pub use numbers::{Spaced, SpacedTags, bytes_of, number_of};
pub use words::{behind, kind_of, line_of, number_in, numbers_of};
