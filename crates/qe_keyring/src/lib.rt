//! What a client draws and derives: the random words of its commands, and the tokens of a schema's encrypted fields.
//!
//!     let keyring = Keyring::new(alloc, schema, &keys)?; // HMAC's keys are hashed once a field
//!     let tokens = keyring.encrypted(0).find_tokens(&item); // by which an item of field 0 is looked for
//!     let mut draws = Draws::at(&key, 7, 0); // the words of the command of number 7
//!     let iv = draws.iv();
//!
//! Contracts see a keyring as a schema with its keys, and cite qe_encodes' definitions. Read: draws, bytes, keyring.
#![tactic(auto)]

mod bytes;
mod draws;
mod keyring;

pub use bytes::spelled_bytes;
pub use draws::Draws;
pub use keyring::{EncryptedField, FieldKey, Keyring};
