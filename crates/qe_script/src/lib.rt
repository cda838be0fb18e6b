//! Scripts: a header and commands, a line each, read exactly.
//!
//! `read_script` answers what `specs/Script` says of the bytes, or the first faulty line with the first of its faults;
//! `read_header` and `read_line` answer the same of single lines. Read: script, fields, callers, header, line, reading, laws.
//!
//!     let script = read_script(alloc, b"{\"seed\":\"00..\",\"fields\":[{\"path\":\"n\"}]}\n{\"do\":\"ids\"}\n")?;
//!     script.lines.slice()[0].command; // PlainCommand::Find, without terms, of ids
#![tactic(auto)]

mod callers;
mod fields;
mod header;
mod laws;
mod line;
mod reading;
mod script;

pub use header::read_header;
pub use laws::what_a_script_holds_is_printed;
pub use line::read_line;
pub use qe_raw::{LineFault, ScriptFault, ScriptKind, next_line, raw_line, read_raw};
pub use qe_texts::{PrintFault, refusal_text, reply_text};
pub use reading::read_script;
pub use script::{Header, Line, Lines, Script};
