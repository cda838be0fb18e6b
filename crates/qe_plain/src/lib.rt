//! Documents, filters, commands and answers as a user sees them, without any encryption.
//!
//!     let again = command.copy()?; // each copy may fail for want of memory
//!
//! What a command means to a collection of plain documents stands in `specs/Collection`. Read: command, copies, laws.
#![tactic(auto)]

mod command;
mod copies;
mod laws;

pub use command::{
    Cells, Filter, Pair, Pairs, PlainCell, PlainCommand, PlainDocument, PlainDocuments, PlainReply,
    RawCommand, Term,
};
pub use laws::{
    a_set_cell_takes_its_fields_place, a_step_keeps_a_collection,
    values_are_the_same_where_they_are_equal,
};
pub use qe_value::Carried;
