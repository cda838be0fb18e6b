//! The engine: what the server keeps, and what each command does to it.
//!
//! ```
//! let mut engine = Engine::new(alloc, schema)?;
//! let reply = engine.apply(caller, command, &nonces)?; // one command takes effect, and one entry is added
//! engine.journal(); // all that took effect so far, which says what the engine keeps
//! ```
//!
//! Contracts see an engine as its schema and its journal; all that it keeps is what qe_protocol defines of these. A call
//! that wants memory changes nothing. Read: dump, engine; of `specs/`: Engines.
#![tactic(auto)]

mod dump;
mod engine;

pub use engine::Engine;
pub use qe_command_document::read_command;
pub use qe_protocol::{
    Command, JournalEntry, Outcome, Reply, Row, Rows, SentCell, SentCells, SentFilter, SentTerm,
    nonces_needed,
};
