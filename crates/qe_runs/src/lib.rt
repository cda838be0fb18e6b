//! Runs of scripts: journals whose entries the lines' callers sent, in the lines' order.
//!
//! Nothing runs here. `specs/` says what a run is and when lines are an interleaving of the callers' (Runs), what is
//! written of its replies (Texts), and what holds of runs (Laws). The functions of `laws` do nothing: each clause is a fact
//! about these definitions. Read: laws.
#![tactic(auto)]

mod laws;

pub use laws::{
    a_command_has_the_number_of_the_earlier_ones, a_run_is_answered_plainly, a_run_is_encoded,
    a_run_without_a_clash_is_the_only_one, runs_grow_by_lines,
};
