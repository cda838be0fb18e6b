//! Values as JSON, in the forms of MongoDB Extended JSON v2.

mod fault;
mod forms;
mod laws;
mod reading;
mod writing;

pub use fault::JsonFault;
pub use laws::{
    a_hundred_levels_are_read, what_is_printed_is_read_again, what_is_read_has_a_form,
    what_is_unprintable,
};
pub use reading::from_json;
pub use writing::to_json;
