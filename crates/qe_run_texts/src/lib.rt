//! The text of a run: the lines of its replies, the line that ends it, and the line of two labels that clash.
//!
//! ```
//! let mut text = replies_text(alloc, &schema, brief, replies)?; // a line each, or their number and their hash
//! text.extend(closing_line(alloc, &engine, labels.len())?.slice())?; // "end labels 20 esc 1 ecoc 1 digest .."
//! clash_line(alloc, &schema, &first, &second)?; // "clash position age 05 0 1 anchor age 06 0 0"
//! ```
//!
//! Each line ends with a line feed. Read: digest, replies, closing, labels; of `specs/`: Closing, Labels, and Texts of qe_runs.
#![tactic(auto)]

mod closing;
mod digest;
mod labels;
mod replies;

pub use closing::closing_line;
pub use labels::clash_line;
pub use replies::replies_text;
