//! Parts of command documents: what stands in their fields, and their filters and tokens.
//!
//!     let cell = sent(alloc, name, value, &kind)?; // a plain value, or a payload of the field's
//!     let terms = filter(alloc, fields, name, value)?;
//!
//! qe_command_document reads the whole by these. Read: payloads, fields, filters, token_documents; of `specs/`: Values,
//! Payloads, Fields, FilterArrays, TokenDocuments.
#![tactic(auto)]

mod fields;
mod filters;
mod payloads;
mod token_documents;

pub use fields::{encrypted, id, sent};
pub use filters::filter;
pub use token_documents::tokens;
