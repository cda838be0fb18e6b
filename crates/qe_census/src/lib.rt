//! The census of a run: its words, how often each was indexed, and all their labels.
//!
//! ```
//! let mut census = Census::new(alloc);
//! census.add(&indexed, &asked, accepted)?; // of each command
//! let labels = census.labels(&schema, &keys)?; // with their identifiers, in order
//! let clash = Census::clash(&labels)?; // the first two that can't be told apart
//! ```
//!
//! Contracts see a census as the words with their numbers, as `Numbers` of qe_labels defines them. Read: census, roots, numbers, word_key, event.
#![tactic(auto)]

mod census;
mod event;
mod numbers;
mod roots;
mod word_key;

pub use census::Census;
pub use qe_label_list::LabelList;
pub use qe_tokens::{Label, LabelKind, Word, Words};
pub use roots::roots_of;
