//! Filters under the fields of a schema: the terms that are meant, or the first fault.
//!
//!     let terms = filter_terms(alloc, fields, &filter)?; // typed values, and intervals with both ends
//!
//! Read: fault, typing, indexing, filters.
#![tactic(auto)]

mod fault;
mod filters;
mod indexing;
mod typing;

pub use fault::PlainFault;
pub use filters::filter_terms;
pub use indexing::{indexed, known_or};
pub use typing::typed_or;
