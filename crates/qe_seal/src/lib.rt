//! Keyed hashes and sealed values: HMAC-SHA-256 (RFC 2104), AES-256-CBC (NIST SP 800-38A), and both together.
//!
//! ```
//! let tag = hmac(&key, &message); // 32 bytes
//! let sealed = seal(rt.alloc(), &data_key, &id, &iv, &plain)?;
//! let opened = unseal(rt.alloc(), &data_key, &id, sealed.slice())?; // the plain bytes, or what is wrong
//! ```
//!
//! Each call answers what its standard's function gives, and each refusal comes exactly where it is due. `laws` says
//! that decryption undoes encryption, and that a value opens exactly where it is sealed. `encipher` and `decipher` put
//! an IV before 16 bytes of AES-256-CTR. They and the hashes take no memory.
//! Read: mac, cbc, enciphered, sealed, laws; the definitions in `specs/` stand in the same order.
#![tactic(auto)]

mod blocks;
mod cbc;
mod enciphered;
mod laws;
mod mac;
mod padding;
mod sealed;

pub use cbc::{CbcFault, cbc_decrypt, cbc_encrypt};
pub use enciphered::{decipher, decipher_pair, encipher, encipher_pair};
pub use laws::{cbc_laws, cipher_laws, examples, seal_laws};
pub use mac::{HmacKey, hmac, prf1, prf2};
pub use sealed::{SealFault, seal, unseal};
