//! The document of a command that is sent for a plain one which fits.
//!
//!     let made = sender.command(alloc, number, &contentions, &plain)?;
//!     let bytes = write_sent(alloc, schema, &plain, &made.command)?; // `read_command` gives the command again
//!
//! Read: writing, covers, schema, laws; of `specs/`: Sent, Laws; of `proofs/`: SentWhole.
#![tactic(auto)]

mod covers;
mod laws;
mod schema;
mod writing;

pub use laws::counted_lengths_are_enough;
pub use writing::write_sent;
