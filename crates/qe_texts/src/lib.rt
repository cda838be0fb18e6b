//! The lines that a script's run prints: replies, and why a script is refused.
//!
//!     let line = reply_text(alloc, &schema, &reply)?; // "ids 1 \"b\"", without its end
//!     let line = refusal_text(alloc, 2, &kind)?; // "bad line 2 Missing do"
//!
//! Values are printed in the forms of MongoDB Extended JSON v2. Read: fault, phrases, document, reply, refusal, laws.
#![tactic(auto)]

mod document;
mod fault;
mod laws;
mod phrases;
mod refusal;
mod reply;

pub use fault::PrintFault;
pub use laws::{a_reply_is_one_line, what_is_printable_stays_so, what_is_unprintable_in_a_reply};
pub use refusal::refusal_text;
pub use reply::reply_text;
