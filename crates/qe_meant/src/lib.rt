//! A script's commands mean something under its schema, and its keys serve the schema: what the laws of encoded commands ask.
//!
//!     let script = read_script(alloc, bytes)?;
//!     a_script_is_meant(&script); // its schema and keys are as laws ask, and so is each command
//!
//! Laws speak of lists of numbers; the functions here read what a value, a key or a schema holds, so that its bytes are
//! known to be bytes and its numbers to fit. They answer nothing. `specs/` says what a value's type tells of it (Held).
//! Read: values, commands, schema, script.
#![tactic(auto)]

mod commands;
mod schema;
mod script;
mod values;

pub use schema::keys_serve_their_schema;
pub use script::{a_command_is_meant, a_script_is_meant};
