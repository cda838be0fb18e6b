//! HMAC-SHA-256 (RFC 2104), of a message and of numbers.

ghost use Rattle.std.specs.Prelude.{◌≡◌, ℕ, List, ◌-◌, ◌++◌, ◌≤◌, length, replicate};
ghost use Rattle.sha2.specs.Sha256.{sha256};
ghost use Rattle.sha2.specs.Hashers.{Holds256};
ghost use Rattle.qe_seal.specs.Hmac.{key_block, padded_block, hmac_sha256, prf1_of, prf2_of};

use qe_base::write_at;
use sha2::{Digest, Sha256};

/// The length of SHA-256's block, in bytes.
const BLOCK_LEN: usize = 64;

/// The byte of the inner pad.
const IPAD: u8 = 0x36;

/// The byte of the outer pad.
const OPAD: u8 = 0x5c;

/// A key of HMAC-SHA-256 with its two pads hashed, for many messages under one key.
#[derive(Drop)]
pub struct HmacKey {
    inner: Sha256,
    outer: Sha256,
}

impl HmacKey {
    ghost use Rattle.qe_seal.specs.HmacKey.{IsKeyedBy};

    /// Hashes the pads. The key may have any length.
    pub fn new(key: &[u8]) -> HmacKey
        ensures { IsKeyedBy result key.now }
    {
        let block = block_of(key);
        HmacKey {
            inner: hasher_of(&padded(&block, IPAD)),
            outer: hasher_of(&padded(&block, OPAD)),
        }
    }

    /// `hmac` of a message under the key.
    pub fn mac(&self, message: &[u8]) -> [u8; 32]
        ensures { (key : List ℕ) → IsKeyedBy self.now key → result ≡ hmac_sha256 key message.now }
    {
        self.mac_of_parts(message, &[], &[])
    }

    /// `prf1` under the key.
    #[tactic(auto, unfolding(crate::specs::Hmac::prf1_of))]
    pub fn prf1(&self, a: u64) -> [u8; 32]
        ensures { (key : List ℕ) → IsKeyedBy self.now key → result ≡ prf1_of key a }
    {
        self.mac(&a.to_le_bytes())
    }

    /// `prf2` under the key.
    #[tactic(auto, unfolding(crate::specs::Hmac::prf2_of))]
    pub fn prf2(&self, a: u64, b: u64) -> [u8; 32]
        ensures { (key : List ℕ) → IsKeyedBy self.now key → result ≡ prf2_of key a b }
    {
        self.mac_of_parts(&a.to_le_bytes(), &b.to_le_bytes(), &[])
    }

    /// `hmac` of a message in three parts, hashed one after another, so that no buffer is needed.
    #[tactic(auto, unfolding(crate::specs::Hmac::hmac_sha256))]
    pub(crate) fn mac_of_parts(&self, first: &[u8], second: &[u8], third: &[u8]) -> [u8; 32]
        ensures { (key : List ℕ) → IsKeyedBy self.now key → result ≡ hmac_sha256 key (first.now ++ (second.now ++ third.now)) }
    {
        let digest = finish(&self.inner, first, second, third);
        finish(&self.outer, &digest, &[], &[])
    }
}

/// HMAC-SHA-256 of a message (RFC 2104). The key may have any length.
pub fn hmac(key: &[u8], message: &[u8]) -> [u8; 32]
    ensures { result ≡ hmac_sha256 key.now message.now }
{
    HmacKey::new(key).mac(message)
}

/// HMAC-SHA-256 of one number, as 8 little-endian bytes.
pub fn prf1(key: &[u8; 32], a: u64) -> [u8; 32]
    ensures { result ≡ prf1_of key.now a }
{
    HmacKey::new(key).prf1(a)
}

/// HMAC-SHA-256 of two numbers, as 8 little-endian bytes each.
pub fn prf2(key: &[u8; 32], a: u64, b: u64) -> [u8; 32]
    ensures { result ≡ prf2_of key.now a b }
{
    HmacKey::new(key).prf2(a, b)
}

// A hasher of one block.
fn hasher_of(block: &[u8; 64]) -> Sha256
    ensures { Holds256 result block.now }
{
    let mut hasher = Sha256::new();
    hasher.update(block);
    hasher
}

// SHA-256 of what the hasher holds and three parts more. The hasher stays as it is.
fn finish(hasher: &Sha256, first: &[u8], second: &[u8], third: &[u8]) -> [u8; 32]
    ensures { (held : List ℕ) → Holds256 hasher.now held → result ≡ sha256 (held ++ (first.now ++ (second.now ++ third.now))) }
{
    let mut copy = hasher.clone().unwrap();
    copy.update(first);
    copy.update(second);
    copy.update(third);
    copy.finalize()
}

// The key as one block: a longer one is hashed, and zeros fill the rest.
#[tactic(auto, unfolding(crate::specs::Hmac::key_block))]
fn block_of(key: &[u8]) -> [u8; 64]
    ensures { result ≡ key_block key.now }
{
    if key.len() > BLOCK_LEN {
        zero_padded(&Sha256::digest(key))
    } else {
        zero_padded(key)
    }
}

// The bytes, and zeros to the end of a block.
fn zero_padded(bytes: &[u8]) -> [u8; 64]
    requires { length bytes.now ≤ 64 }
    ensures { result ≡ bytes.now ++ replicate (64 - length bytes.now) 0 }
{
    let mut block = [0u8; BLOCK_LEN];
    write_at(&mut block, 0, bytes);
    block
}

// The block with each byte combined with a pad.
fn padded(block: &[u8; 64], pad: u8) -> [u8; 64]
    ensures { result ≡ padded_block pad block.now }
{
    let mut out = *block;
    for i in 0..BLOCK_LEN {
        out[i] ^= pad;
    }
    out
}
