//! The forms of MongoDB Extended JSON v2: objects that stand for values which hold no other.
//!
//!     let form = Form::of(&members); // the form of an object, and what stands in it
//!     let value = value_in(alloc, form, inner)?; // its value, if it has this content
//!     let json = long(alloc, 5)?; // {"$numberLong":"5"}
//!
//! qe_bson reads and writes whole values by these. Read: forms, writing, laws; of `specs/`: Forms, Writing, Ranges.
#![tactic(auto)]

mod forms;
mod laws;
mod writing;

pub use forms::{Form, value_in};
pub use laws::{an_integer_has_one_text, bytes_have_one_text};
pub use writing::{binary, date, int, long, object_id};
