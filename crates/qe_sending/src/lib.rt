//! What a client sends for a plain command.
//!
//!     let sender = Sender::new(keyring, &seed, name);
//!     let made = sender.command(alloc, number, &contentions, &plain)?; // tokens and sealed values in the place of plain ones
//!     let nonces = sender.nonces(alloc, number, made.words, count)?; // the words that follow in the command's stream
//!
//! Contracts cite qe_encodes' definitions: what is made is `command_of`. Read: values, terms, tokens, sender.
#![tactic(auto)]

mod sender;
mod terms;
mod tokens;
mod values;

pub use sender::{Made, Sender};
