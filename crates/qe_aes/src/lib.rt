//! AES-256 (FIPS 197) and its counter mode (NIST SP 800-38A).
//!
//! ```
//! let cipher = Aes256::new(&key);
//! let back = cipher.decrypt(cipher.encrypt(block)); // the block again
//! cipher.ctr(&iv, &mut bytes); // enciphered in place; a second call deciphers them
//! ```
//!
//! A key is expanded once, into an `Aes256`. Contracts see that as its 32 bytes, and say that `encrypt` is
//! the standard's cipher under them, with no table in its definition. No call takes memory or fails.
//! The tables are looked up at places that depend on the key: nothing is claimed of the time that it takes.
//!
//! Read: block_cipher, rounds, state, columns, schedule; then counter, laws.
#![tactic(auto)]

mod block_cipher;
mod columns;
mod counter;
mod laws;
mod rounds;
mod schedule;
mod state;
mod tables;

pub use block_cipher::{Aes256, ctr};
pub use counter::xor_front;
pub use laws::{counter_mode_laws, finds_inverses, standard_vectors, undo_each_other};
