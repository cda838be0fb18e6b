//! Commands, as a client sends them: tokens and sealed values in the place of plain ones.
//!
//!     let nonces = nonces_needed(&command); // for each encrypted value and its items, or for each unit of a step
//!
//! No key stands here. Commands are read from their documents by qe_command_document. Read: cells, filter, command,
//! nonces; of `specs/`: Items, Nonces.
#![tactic(auto)]

mod cells;
mod command;
mod filter;
mod nonces;

pub use cells::{SentCell, SentCells};
pub use command::Command;
pub use filter::{SentFilter, SentTerm};
pub use nonces::nonces_needed;
