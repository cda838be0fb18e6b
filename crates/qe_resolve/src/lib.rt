//! Commands under the fields of a schema: with field numbers, typed values and whole intervals, or the first fault.
//!
//!     let command = resolved(alloc, fields, &raw)?;
//!
//! Read: slots, cells, pairs, resolve.
#![tactic(auto)]

mod cells;
mod pairs;
mod resolve;
mod slots;

pub use resolve::resolved;
