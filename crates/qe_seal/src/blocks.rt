//! Blocks that are chained: each is combined with the cipher block before it.

ghost use Rattle.std.specs.Prelude.{◌≡◌, ◌/◌, ◌%◌, ◌++◌, length, IfOk, OnOk};
ghost use Rattle.qe_aes.specs.Field.{xor_bytes};
ghost use Rattle.qe_seal.specs.Cbc.{cbc_encryption, cbc_plain};

use crate::padding::last_block;
use qe_aes::{Aes256, xor_front};
use qe_base::array_at;
use std::alloc::{AllocError, Global};

/// The length of a block of AES, in bytes.
pub(crate) const BLOCK_LEN: usize = 16;

/// Adds the cipher of the padded plain bytes.
pub(crate) fn push_cipher(
    bytes: &mut Vec<u8>,
    key: &[u8; 32],
    iv: &[u8; 16],
    plain: &[u8],
) -> Result<(), AllocError>
    ensures { OnOk result (bytes.new.items ≡ bytes.old.items ++ cbc_encryption key.now iv.now plain.now) }
{
    let cipher = Aes256::new(key);
    let mut before = *iv;
    for i in 0..plain.len() / BLOCK_LEN {
        let block = cipher.encrypt(combined(array_at(plain, BLOCK_LEN * i), &before));
        bytes.extend_from_slice(&block)?;
        before = block;
    }
    let last = cipher.encrypt(combined(last_block(plain), &before));
    bytes.extend_from_slice(&last)?;
    Ok(())
}

/// The plain blocks of which these are the cipher, with the padding.
pub(crate) fn deciphered(
    alloc: Global,
    key: &[u8; 32],
    iv: &[u8; 16],
    bytes: &[u8],
) -> Result<Vec<u8>, AllocError>
    requires { length bytes.now % 16 ≡ 0 }
    ensures { IfOk result (λ plain. plain.items ≡ cbc_plain key.now iv.now (length bytes.now / 16) bytes.now) }
{
    let cipher = Aes256::new(key);
    let mut plain = Vec::with_capacity(alloc, bytes.len())?;
    let mut before = *iv;
    for i in 0..bytes.len() / BLOCK_LEN {
        let enciphered = array_at(bytes, BLOCK_LEN * i);
        plain.extend_from_slice(&combined(cipher.decrypt(enciphered), &before))?;
        before = enciphered;
    }
    Ok(plain)
}

fn combined(block: [u8; 16], other: &[u8; 16]) -> [u8; 16]
    ensures { result ≡ xor_bytes block other.now }
{
    let mut sum = block;
    xor_front(&mut sum, other);
    sum
}
