//! What payloads are made of: the parts that stand under their names, the edges of ranges, what is carried unread, and the
//! writing of documents, of arrays of entries and of blobs.
//!
//! ```text
//! put_binary(alloc, &mut document, "d", GENERIC, bytes_of(&token))?;
//! let blob = blob_of(alloc, 12, &document)?;
//! ```
//!
//! A kind of payload is a table of these parts (qe_insert, qe_find). Read: edges, parts, extra, written, entries.
#![tactic(auto)]

mod edges;
mod entries;
mod extra;
mod parts;
mod written;

pub use edges::{EdgeList, EdgeTokens, FindEdge, FindEdges, Inner};
pub use entries::{Entry, array_of};
pub use extra::{carry_all, extra_in};
pub use parts::{
    GENERIC, Part, UUID, carried, cipher, cipher_in, key_id, key_id_in, number, number_in,
    operator, sealed, sealed_in, token, token_in, whole, whole_in,
};
pub use written::{blob_of, put, put_binary};
