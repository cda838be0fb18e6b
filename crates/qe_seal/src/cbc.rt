//! CBC with padding: calls and refusals.

ghost use Rattle.std.specs.Prelude.{◌≡◌, IfOk};
ghost use Rattle.qe_base.specs.Answers.{Answers};
ghost use Rattle.qe_seal.specs.Cbc.{cbc_encryption, cbc_decryption, kept_fault};

use crate::blocks::{BLOCK_LEN, deciphered, push_cipher};
use crate::padding::unpadded;
use qe_base::{Bytes, NoMemory};
use std::alloc::Global;
use thiserror::Error;

/// Why bytes aren't decrypted.
#[derive(Clone, Copy, Debug, PartialEq, Eq, Error)]
pub enum CbcFault {
    /// The length is 0 or no multiple of 16.
    #[error("the length is not one block or more")]
    BadLength,
    /// The last byte `b` isn't 1 to 16, or the last `b` bytes aren't all `b`.
    #[error("the padding is wrong")]
    BadPadding,
    /// There was no memory.
    #[error("out of memory")]
    NoMemory,
}

/// AES-256-CBC (NIST SP 800-38A, 6.2) of the plain bytes with their padding (RFC 5652, 6.3).
///
/// The cipher has 1 to 16 bytes more than the plain bytes, so that its length is a multiple of 16.
#[tactic(auto, unfolding(crate::specs::Cbc::cbc_encryption))]
pub fn cbc_encrypt(
    alloc: Global,
    key: &[u8; 32],
    iv: &[u8; 16],
    plain: &[u8],
) -> Result<Bytes, NoMemory>
    ensures { IfOk result (λ cipher. cipher ≡ cbc_encryption key.now iv.now plain.now) }
{
    let mut bytes = Vec::with_capacity(alloc, plain.len().saturating_add(BLOCK_LEN))?;
    push_cipher(&mut bytes, key, iv, plain)?;
    Ok(Bytes::from_vec(alloc, bytes))
}

/// The bytes of which `cbc_encrypt` makes these.
#[tactic(auto, unfolding(crate::specs::Cbc::cbc_decryption))]
pub fn cbc_decrypt(
    alloc: Global,
    key: &[u8; 32],
    iv: &[u8; 16],
    bytes: &[u8],
) -> Result<Bytes, CbcFault>
    ensures { Answers (λ plain. plain) kept_fault result (cbc_decryption key.now iv.now bytes.now) }
{
    if bytes.is_empty() || bytes.len() % BLOCK_LEN != 0 {
        return Err(CbcFault::BadLength);
    }
    let items = deciphered(alloc, key, iv, bytes).map_err(|_| CbcFault::NoMemory)?;
    unpadded(alloc, items)
}
