//! Whether the document of a plain command can be BSON of the profile.
//!
//!     fits(alloc, fields, &command)?; // at most 16,777,216 bytes, 100 levels, and no name with a byte 0
//!     misfit(alloc, fields, &command)?; // the value of the command's line that is at fault
//!
//! The bytes are counted over the plain command, so they don't depend on what is drawn. Counts have 32 bits: what is
//! more stays at the greatest. Read: part, lengths, payloads, cells, terms, command, judging.
#![tactic(auto)]

mod cells;
mod command;
mod judging;
mod lengths;
mod part;
mod payloads;
mod terms;

pub use judging::{fits, misfit};
pub use part::Part;
