//! What a user writes: fields and keys, documents, filters and commands, without any encryption.
//!
//!     let schema = Schema::read(alloc, &document)?; // the fields, or the first fault
//!     let keys = Keys::new(alloc, &schema, list)?;
//!     let command = schema.resolve(alloc, &raw)?; // with field numbers, typed values and whole intervals
//!     schema.fits(alloc, &command)?; // whether its document can be written
//!
//! Fields stand in qe_field, commands and answers in qe_plain, what a command means under fields in qe_filter and
//! qe_resolve, and whether it can be written in qe_fits; all are handed on here. Read: schema, fault, keys, laws.
#![tactic(auto)]

mod fault;
mod keys;
mod laws;
mod schema;

pub use fault::KeyFault;
pub use keys::Keys;
pub use laws::{
    a_given_end_stands_and_a_missing_one_is_the_domains, a_path_is_unknown_where_no_field_has_it,
    a_resolved_command_holds_what_is_allowed, resolved_cells_are_the_fields,
    resolved_terms_are_the_fields, what_is_read_is_a_schema,
};
pub use qe_field::{Field, FieldKind, SchemaFault};
pub use qe_filter::PlainFault;
pub use qe_fits::Part;
pub use qe_plain::{
    Carried, Cells, Filter, Pair, Pairs, PlainCell, PlainCommand, PlainDocument, PlainDocuments,
    PlainReply, RawCommand, Term,
};
pub use schema::Schema;
