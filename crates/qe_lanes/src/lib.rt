//! Sixteen hashes at once: HMAC-SHA-256 (RFC 2104) of short messages, each in a lane of its own and under its own key.
//!
//! ```
//! let keys = LaneKeys::new(&tokens); // sixteen keys of 32 bytes, hashed
//! let ids = keys.prf1(&numbers); // sixteen digests, each `prf1` of qe_seal
//! ```
//!
//! A row is a word of each of sixteen lanes. Loops go over the lanes of a row, which compilers turn into vector
//! instructions, so that a hash costs half of a single one. Each lane answers what the definitions of sha2 and qe_seal
//! say of its key and its numbers. No call takes memory.
//! Read: compression, blocks, keys; the definitions in `specs/` stand in the same order.
#![tactic(auto)]

mod blocks;
mod compression;
mod constants;
mod keys;
mod words;

pub use compression::{Row, compress};
pub use keys::{LaneKey, LaneKeys};
