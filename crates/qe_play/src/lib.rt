//! A script played: a run of it, the run's labels checked, and its text.
//!
//! ```
//! let ScriptDue { verdict, text } = script_due(alloc, &script)?;
//! // Verdict::Done: the lines of the replies, and the line of the last state and its labels
//! // Verdict::Clash: the line of two labels of a run that share an identifier
//! ```
//!
//! Of what stands below it hands on one line played (`play_line` of qe_line_played) and a script run (`run_script` of
//! qe_script_run). `specs/` says what is due (Due), and what a run's labels and its text are (Runs). Read: due, labels, clear,
//! text.
#![tactic(auto)]

mod clear;
mod due;
mod labels;
mod text;

pub use due::{ScriptDue, Verdict, a_script_has_one_verdict, script_due};
pub use qe_line_played::{PlayFault, Played, play_line};
pub use qe_script_run::{Ran, run_script};
