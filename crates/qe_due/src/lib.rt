//! What a call of the program is to write, and with which status, by its words and what its source gives. Nothing is written here.
//!
//! ```
//! let Ending { status, text } = due(alloc, &words, &mut source)?;
//! // of `replay`: Done and the text of the run of the script, Clash and the line of its first clash, or BadScript and the line of
//! // its first fault; of `show`: the lines of blobs; of `make`: a script; of other words: BadWords and the usage line
//! ```
//!
//! `specs/` says what is due (Due), and that it is the one status of words and an input (Status, Laws). Read: calls, ending, task,
//! texts, laws.
#![tactic(auto)]

mod calls;
mod ending;
mod laws;
mod task;
mod texts;

pub use calls::due;
pub use ending::{Ending, Stop};
pub use laws::what_is_due_has_one_status;
pub use task::Task;
