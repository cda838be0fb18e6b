//! Lines of a script, read to raw commands.
//!
//! `read_raw` reads a line as JSON (RFC 8259), looks for names that its command doesn't know and for those that it lacks,
//! and reads the values. What the command means under a schema is judged by qe_script, which reads headers with the same
//! calls. Read: fault, lines, object, names, verb, values, caller, raw.
//!
//!     let (caller, raw) = read_raw(alloc, &callers, 2, b"{\"do\":\"step\",\"job\":1}")?; // RawCommand::Step { job: 1, limit: 1 }
#![tactic(auto)]

mod caller;
mod fault;
mod lines;
mod names;
mod object;
mod raw;
mod values;
mod verb;

pub use caller::caller_in;
pub use fault::{LineFault, ScriptFault, ScriptKind};
pub use lines::next_line;
pub use names::{Rule, check_names, member};
pub use object::{Object, read_json};
pub use raw::{command_in, object_command, raw_line, read_raw};
pub use values::{needed, needed_whole, optional_document, value_if_any};
pub use verb::{Verb, rules_of, verb_in};
