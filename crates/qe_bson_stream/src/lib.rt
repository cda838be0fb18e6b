//! Documents of BSON 1.1 (bsonspec.org) that come in pieces.
//!
//!     let mut reader = Reader::new(alloc);
//!     let read = reader.feed(piece)?; // the document that is whole now, and how many bytes of the piece it used
//!
//! `Reader` takes the bytes in any pieces and gives what qe_document's `decode` gives of the whole. Read: reader; of
//! `specs/`: Stream, Runs.
#![tactic(auto)]

mod reader;

pub use reader::{
    Reader, a_cut_stream_gives_the_documents_of_the_whole, more_bytes_leave_what_is_decided,
};
