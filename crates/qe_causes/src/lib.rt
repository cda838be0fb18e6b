//! Why commands are refused, as a law of what the protocol says of each command.
//!
//! A reply that refuses a command comes exactly where its cause is there. It stands in the state that the command meets; that
//! of a mismatch stands in the rows after the step's earlier units. Read: laws; of `specs/`: Causes.
#![tactic(auto)]

mod laws;

pub use laws::each_refusal_has_its_cause;
