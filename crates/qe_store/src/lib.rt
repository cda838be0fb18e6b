//! Stored documents, found by number, by id and by tags.
//!
//!     store.reserve(1, tags.len())?;
//!     store.insert(stored); // its number is what `store.made()` was
//!     store.number_of(&id); // that number, where the id is the document's
//!     store.matching(&terms)?; // the numbers of the documents that meet all conditions
//!
//! Contracts see a store as its numbered documents, in the order of insertion.
//! Read: stored, key, place, pairing, matching, store. The definitions are `specs/Cells` and `Kept`; `Parts` and `IdHash` say
//! how a store is kept.
#![tactic(auto)]

mod key;
mod matching;
mod pairing;
mod place;
mod store;
mod stored;

pub use store::Store;
pub use stored::{Cell, Stored, StoredCells, TermSet, TermSets};
