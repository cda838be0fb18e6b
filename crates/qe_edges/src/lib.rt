//! The range index: which prefixes of a value are stored, and which a query for an interval asks for.
//!
//! ```text
//! let domain = Domain::new(0, 7, 1, Some(0))?;
//! domain.edges(alloc, 5)?;     // root, 1, 10, 101
//! domain.cover(alloc, 1, 6)?;  // 001, 01, 10, 110: a value's edges have one of them where it lies in the interval
//! ```
//!
//! A value of a domain is a string of binary digits. Its edges are its prefixes at the stored levels. The cover of an
//! interval is the stored prefixes whose block (all strings that they begin) lies inside the interval, and of which no
//! shorter one's does. So a value lies in the interval exactly where its edges and the cover share a prefix, and then
//! they share one (`meet_once`).
//! Read: domain, levels, edge, edges, cover, laws.
#![tactic(auto)]

mod cover;
mod domain;
mod edge;
mod edges;
mod laws;
mod levels;

pub use cover::MOST_OF_COVER;
pub use domain::{Domain, DomainFault};
pub use edge::{Edge, Edges};
pub use edges::MOST_EDGES;
pub use laws::{lists_are_the_sets, meet_once, one_list, tests_tell_the_stored, texts_differ};
