//! A line of a script run: it is played by its caller's client, which learns of the answer.
//!
//!     let mut clients = clients_of(alloc, &script)?; // a client for each caller
//!     let played = play_next(alloc, &script, place, &mut engine, clients.as_mut_slice())?; // the line at a place
//!     last_outcome(engine.journal()); // what its entry says
//!
//! Whatever the script says, the reply is read: what the engine stores was sent by these clients. `specs/` says how far engine
//! and clients have come (Running) and what a line adds (Playing). Read: outcomes, clients, playing.
#![tactic(auto)]

mod clients;
mod outcomes;
mod playing;

pub use clients::clients_of;
pub use outcomes::last_outcome;
pub use playing::play_next;
