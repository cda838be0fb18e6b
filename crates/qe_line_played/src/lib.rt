//! A line played: a caller's command is sent to an engine, and the reply is read.
//!
//!     let played = play_line(alloc, &mut client, &mut engine, caller, &command)?; // the journal has one entry more
//!     played.reply; // what the client reads of the engine's reply
//!     played.sent; // what was sent, with its words
//!
//! This holds for every engine of the client's schema, whatever its journal. `specs/Played` says what one line comes to.
//! Read: fault, played.
#![tactic(auto)]

mod fault;
mod played;

pub use fault::PlayFault;
pub use played::{Played, play_line};
