//! A script run: a client for each caller, one engine, and the lines played in their order (each as qe_line_run says).
//!
//!     let ran = run_script(alloc, &script)?;
//!     ran.engine.journal(); // a run of the script's lines: an entry for each
//!     ran.census; // the words that were stored and looked for
//!     ran.replies; // what the callers read, a reply for each line
//!
//! Whatever the script says, each reply is read: what an engine stores was sent by these clients. `specs/` says how far a run
//! has come (Reached). Read: ran, outcomes, starting, running.
#![tactic(auto)]

mod outcomes;
mod ran;
mod running;
mod starting;

pub use ran::Ran;
pub use running::run_script;
