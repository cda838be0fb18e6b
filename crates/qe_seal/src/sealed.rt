//! Sealed values: bytes that are encrypted and authenticated with an id.

ghost use Rattle.std.specs.Prelude.{◌≡◌, ◌≤◌, length, take, drop, IfOk};
ghost use Rattle.qe_base.specs.Answers.{Answers};
ghost use Rattle.qe_seal.specs.Cbc.{cbc_decryption};
ghost use Rattle.qe_seal.specs.Sealed.{encryption_key, seal_mac, Seals, seal_answer, opened_value, kept_fault};

use crate::blocks::{BLOCK_LEN, push_cipher};
use crate::cbc::{CbcFault, cbc_decrypt};
use crate::mac::HmacKey;
use qe_base::{Bytes, NoMemory, array_at};
use std::alloc::Global;
use thiserror::Error;

/// The length of the MAC, in bytes.
const MAC_LEN: usize = 32;

/// The length of the shortest sealed value, in bytes: an IV, one block and the MAC.
const SHORTEST: usize = BLOCK_LEN + BLOCK_LEN + MAC_LEN;

/// Why a sealed value isn't opened: the first of these that holds.
#[derive(Clone, Copy, Debug, PartialEq, Eq, Error)]
pub enum SealFault {
    /// There are fewer than 64 bytes.
    #[error("fewer than 64 bytes")]
    TooShort,
    /// The MAC under the key isn't the stored one, which is `got`.
    #[error("the MAC differs")]
    MacDiffers { want: [u8; 32], got: [u8; 32] },
    /// The length of the cipher is no multiple of 16.
    #[error("the length is not one block or more")]
    BadLength,
    /// The last byte `b` of the decrypted bytes isn't 1 to 16, or the last `b` aren't all `b`.
    #[error("the padding is wrong")]
    BadPadding,
    /// There was no memory.
    #[error("out of memory")]
    NoMemory,
}

impl From<CbcFault> for SealFault {
    ghost use Rattle.std.specs.Prelude.{◌≡◌};
    ghost use Rattle.qe_seal.specs.Sealed.{seal_fault};

    ghost from_gives = { λ cause fault. fault ≡ seal_fault cause };

    fn from(cause: CbcFault) -> Self {
        match cause {
            CbcFault::BadLength => SealFault::BadLength,
            CbcFault::BadPadding => SealFault::BadPadding,
            CbcFault::NoMemory => SealFault::NoMemory,
        }
    }
}

/// The plain bytes, encrypted and authenticated with the id (RFC 7518, 5.2.2.1).
///
/// The key's bytes 0 to 31 are the encryption key, 32 to 63 the MAC key. The sealed value is the IV, the
/// cipher of `cbc_encrypt`, and the MAC: HMAC-SHA-256 of the id, the IV, the cipher and the id's length
/// in bits as 8 big-endian bytes.
#[tactic(auto, unfolding(crate::specs::Sealed::Seals))]
pub fn seal(
    alloc: Global,
    key: &[u8; 96],
    id: &[u8; 16],
    iv: &[u8; 16],
    plain: &[u8],
) -> Result<Bytes, NoMemory>
    ensures { IfOk result (λ sealed. Seals key.now id.now iv.now plain.now sealed) }
{
    let mut bytes = Vec::with_capacity(alloc, plain.len().saturating_add(SHORTEST))?;
    bytes.extend_from_slice(iv)?;
    push_cipher(&mut bytes, &encryption_key(key), iv, plain)?;
    let mac = seal_mac(key, id, &bytes);
    bytes.extend_from_slice(&mac)?;
    Ok(Bytes::from_vec(alloc, bytes))
}

/// The plain bytes of a sealed value, where `seal` makes it of them with this key and id.
#[tactic(auto, unfolding(crate::specs::Sealed::opened_value))]
pub fn unseal(
    alloc: Global,
    key: &[u8; 96],
    id: &[u8; 16],
    sealed: &[u8],
) -> Result<Bytes, SealFault>
    ensures { Answers (λ plain. plain) kept_fault result (opened_value key.now id.now sealed.now) }
{
    if sealed.len() < SHORTEST {
        return Err(SealFault::TooShort);
    }
    let body = &sealed[..sealed.len() - MAC_LEN];
    let got = array_at(sealed, sealed.len() - MAC_LEN);
    let want = seal_mac(key, id, body);
    if want != got {
        return Err(SealFault::MacDiffers { want, got });
    }
    opened(alloc, key, body)
}

// The plain bytes of an IV and a cipher.
fn opened(alloc: Global, key: &[u8; 96], body: &[u8]) -> Result<Bytes, SealFault>
    requires { 16 ≤ length body.now }
    ensures { Answers (λ plain. plain) kept_fault result (seal_answer (cbc_decryption (encryption_key key.now) (take 16 body.now) (drop 16 body.now))) }
{
    let iv = array_at(body, 0);
    let plain = cbc_decrypt(alloc, &encryption_key(key), &iv, &body[BLOCK_LEN..])?;
    Ok(plain)
}

fn encryption_key(key: &[u8; 96]) -> [u8; 32]
    ensures { result ≡ encryption_key key.now }
{
    array_at(key, 0)
}

// The MAC over the IV and the cipher, which are the body.
#[tactic(auto, unfolding(crate::specs::Sealed::seal_mac))]
fn seal_mac(key: &[u8; 96], id: &[u8; 16], body: &[u8]) -> [u8; 32]
    ensures { result ≡ seal_mac key.now id.now body.now }
{
    let id_bits = 8 * id.len() as u64;
    HmacKey::new(&key[32..64]).mac_of_parts(id, body, &id_bits.to_be_bytes())
}
