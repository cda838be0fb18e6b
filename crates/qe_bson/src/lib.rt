//! Documents of BSON 1.1 (bsonspec.org) that come in pieces, and their JSON; with all of qe_document.
//!
//!     let mut reader = Reader::new(alloc);
//!     let read = reader.feed(piece)?; // the document that is whole now, and how many bytes of the piece it used
//!     let json = to_json(alloc, &value)?;
//!
//! `Reader`, of qe_bson_stream, takes the bytes in any pieces and gives what `decode` gives of the whole. `from_json` and
//! `to_json` are the forms of MongoDB Extended JSON v2, over those of qe_json_forms. Read: extended_json.
#![tactic(auto)]

mod extended_json;

pub use extended_json::{
    JsonFault, a_hundred_levels_are_read, from_json, to_json, what_is_printed_is_read_again,
    what_is_read_has_a_form, what_is_unprintable,
};
pub use qe_bson_stream::{
    Reader, a_cut_stream_gives_the_documents_of_the_whole, more_bytes_leave_what_is_decided,
};
pub use qe_document::{
    BsonFault, BsonKind, Document, ElementType, EncodeFault, MOST_BYTES, MOST_LEVELS, Plain,
    PushFault, Value, Values, decode, encode, lengths_are_sums, value_bytes, value_from,
    value_kind, what_begins_bytes_is_read, what_fits_is_written, what_spells_a_value_is_read,
};
pub use qe_json_forms::{an_integer_has_one_text, bytes_have_one_text};
