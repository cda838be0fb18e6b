//! What holds of a command that fits a schema, which its document says element by element.
//!
//! Fields are those of the schema, each of its kind; cells and tokens are in schema order; numbers are within their
//! bounds. Read: laws; of `specs/`: OfSchema, Sizes.
#![tactic(auto)]

mod laws;

pub use laws::what_fits_is_of_its_schema;
