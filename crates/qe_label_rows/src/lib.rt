//! The rows of labels with their identifiers, kind by kind, from the tokens of words.
//!
//! ```
//! let rows = rows_of(alloc, &tokens)?; // all positions, then all anchors, then all tags
//! ```
//!
//! Each kind's rows are laid out first, and then their identifiers are made sixteen at once, which costs half of one at a
//! time: each word's key is derived and hashed once, in a lane beside fifteen others, and put in a lane again for each row.
//! Read: row, making, batch, keys.
#![tactic(auto)]

mod batch;
mod keys;
mod making;
mod row;

pub use making::rows_of;
pub use row::{Row, WordTokens};
