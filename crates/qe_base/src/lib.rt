//! What every crate of the project stands on: the outside, and the small types that pass between layers.
//!
//! A `Source` gives bytes and a `Sink` takes them, in order; both count their faults, and a call is refused only
//! where that count rose. `take_all` and `put_all` move whole texts. `Listing`, `Bytes` and `Text` are what
//! contracts see as plain lists. Read: outside, transfer, memory, standard, listing, text, lines, arrays, steps, maintenance, status.
//!
//!     let mut sink = MemorySink::new(alloc, 3)?;
//!     put_all(&mut sink, take_all(alloc, &mut source)?.slice())?;
//!     sink.held(); // the bytes that the source had left
#![tactic(auto)]

mod arrays;
mod failure;
mod lines;
mod listing;
mod maintenance;
mod memory;
mod outside;
mod standard;
mod status;
mod steps;
mod text;
mod transfer;

pub use arrays::{array_at, bytes_of, write_at};
pub use failure::{Failed, NoMemory};
pub use lines::Lines;
pub use listing::{Bytes, Duplicate, Ids, KeyList, Listing, Nonces, Numbers, Tags, Texts};
pub use maintenance::{Count, Counts, JobKind};
pub use memory::{MemorySink, MemorySource};
pub use outside::{FreeGate, Gate, Sink, Source};
pub use standard::{StdSink, StdSource};
pub use status::Status;
pub use steps::Steps;
pub use text::Text;
pub use transfer::{TakeFault, put_all, take_all};
