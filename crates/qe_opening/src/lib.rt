//! Replies as those who hold the keys read them: each stored value opened, or the first fault; and what is learned of them.
//!
//!     let openers = opening_keys(alloc, &schema, &keys)?; // made once of a schema and its keys
//!     let answered = answer(alloc, openers.slice(), &reply)?; // the reply in plain, or the first cell without a value
//!     learn(&mut contentions, &command, &reply); // each field's contention, as far as the reply tells it
//!
//! `specs/Opening` and `specs/Answer` say what is read, as functions; the functions of `laws` say that they answer exactly
//! where a reply means something by qe_encodes, that a journal of encoded commands is always read, and that what is learned
//! stays within the greatest contentions.
//! Read: fault, keys, opening, replies, learning, laws.
#![tactic(auto)]

mod fault;
mod keys;
mod laws;
mod learning;
mod opening;
mod replies;

pub use fault::{ReadFault, ReadKind};
pub use keys::{FieldKey, OpeningKeys, opening_keys};
pub use laws::{
    a_reply_is_read_where_it_means_something, what_is_answered_is_read,
    what_is_learned_stays_within,
};
pub use learning::learn;
pub use replies::answer;
