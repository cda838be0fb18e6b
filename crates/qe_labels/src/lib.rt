//! The words of a run, how often each was indexed, and their labels in order.
//!
//! Nothing runs here. `specs/` says what a schema and its keys give (Under), the order of words and their numbers (Numbers), the
//! list of a run's labels (Listed), and the first two of a list that share an identifier (Clashes). The functions of
//! `laws` do nothing: each clause is a fact about these definitions. Read: laws.
#![tactic(auto)]

mod laws;

pub use laws::{clashes_are_tested, labels_are_listed, numbers_only_grow};
