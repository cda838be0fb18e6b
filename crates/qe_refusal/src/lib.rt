//! What the server answers before all else, and what its journal keeps of an answer.
//!
//! ```
//! if let Some(reply) = refusal(&current, &command) {
//!     let outcome = outcome_of(&reply); // the reply with numbers in the place of documents
//! }
//! ```
//!
//! A command is refused that asks for fewer contention factors than are in use, or has a greater one. Read: contention,
//! outcome.
#![tactic(auto)]

mod contention;
mod outcome;

pub use contention::{current_of, refusal};
pub use outcome::outcome_of;
