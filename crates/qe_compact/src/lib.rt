//! Maintenance of rows: compactions and cleanups, which run as jobs in steps.
//!
//! ```
//! let job = upkeep.begin(&esc, &mut ecoc, JobKind::Compact, &tokens)?; // the rows for compaction go aside
//! upkeep.step(&mut esc, &nonces, &mut counts, &mut opened)?; // a unit for each nonce; answers how much is left
//! upkeep.end(); // where nothing is left: how many rows of leaves were handled
//! ```
//!
//! Contracts see an `Upkeep` as the jobs of the server's state, and say what each call does as equations with the
//! definitions of qe_protocol, whatever documents and contentions there are. A step looks at rows as they will be, and
//! takes all its memory before it changes anything; it costs by the units that it does.
//! Read: queue, job, fault, begin, draft, rows, unit, upkeep; in `specs/` Parts and Answers, and then Drafts and Turns.
#![tactic(auto)]

mod begin;
mod draft;
mod fault;
mod job;
mod queue;
mod rows;
mod unit;
mod upkeep;

pub use fault::{BeginFault, StepFault};
pub use upkeep::Upkeep;
