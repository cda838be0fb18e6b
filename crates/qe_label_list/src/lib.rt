//! Labels with their identifiers, in order, and the first two of a group that share one.
//!
//! ```
//! let list = labels_of(alloc, &roots, counted)?; // of words, each with how often it was indexed
//! let clash = list.clash()?; // the first two labels whose rows, or whose tags, can't be told apart
//! ```
//!
//! A `LabelList` keeps each word once. Each word's tokens are derived once, and qe_label_rows makes the identifiers under
//! them. `laws` says which clash is the first. Read: order, list, clash, laws, tokens, making.
#![tactic(auto)]

mod clash;
mod kept;
mod laws;
mod list;
mod making;
mod order;
mod tokens;

pub use laws::{a_list_without_a_clash_has_none, the_first_clash_is_the_least};
pub use list::LabelList;
pub use making::labels_of;
pub use order::{label_order, word_order};
