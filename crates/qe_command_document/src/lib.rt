//! Command documents: BSON, as a client sends it to the server.
//!
//!     let command = read_command(alloc, &schema, &bytes)?; // or the first refusal and its path
//!
//! `op` says which command a document is of, and the other elements are read by tables of qe_layout, under a schema; what
//! stands in a field, filters and tokens by qe_command_parts, whose definitions are passed on. Read: part, documents,
//! elements, reading, laws; of `specs/`: CellDocuments, CommandDocument.
#![tactic(auto)]

mod documents;
mod elements;
mod laws;
mod part;
mod reading;

pub use laws::command_documents_are_read;
pub use reading::read_command;
