//! Commands served: what each of them does to the collections that the server keeps, and what it makes.
//!
//! ```
//! let mut kept = Collections::new(alloc, current);
//! let made = kept.run(&command, &nonces)?; // the reply, what each search found, and the fields of the rows opened
//! ```
//!
//! What a command needs is planned over the collections as they stand, and carried out when all memory is there: a call
//! that wants memory changes nothing. Read: made, collections, documents, jobs, contention, serving; of `specs/`:
//! Serving, Documents.
#![tactic(auto)]

mod collections;
mod contention;
mod documents;
mod jobs;
mod made;
mod serving;

pub use collections::Collections;
pub use made::Made;
