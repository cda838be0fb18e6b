//! An IV with 16 bytes in AES-256-CTR behind it, which may be two numbers.

ghost use Rattle.std.specs.Prelude.{◌≡◌, ◌++◌};
ghost use Rattle.qe_seal.specs.Enciphered.{enciphered, deciphered, pair_bytes, pair_in, enciphered_pair, deciphered_pair};

use qe_aes::ctr;
use qe_base::{array_at, write_at};

/// The length of an IV, in bytes.
const IV_LEN: usize = 16;

/// The length of an IV with 16 bytes behind it.
const ENCIPHERED_LEN: usize = 32;

/// The length of a number, in bytes.
const NUMBER_LEN: usize = 8;

/// The IV, and behind it the bytes in AES-256-CTR under it.
pub fn encipher(key: &[u8; 32], iv: &[u8; 16], plain: &[u8; 16]) -> [u8; 32]
    ensures { result ≡ enciphered key.now iv.now plain.now }
{
    let mut cipher = *plain;
    ctr(key, iv, &mut cipher);
    let mut bytes = [0; ENCIPHERED_LEN];
    write_at(&mut bytes, 0, iv);
    write_at(&mut bytes, IV_LEN, &cipher);
    bytes
}

/// The bytes of which `encipher` makes these.
pub fn decipher(key: &[u8; 32], bytes: &[u8; 32]) -> [u8; 16]
    ensures { result ≡ deciphered key.now bytes.now }
{
    let iv = array_at(bytes, 0);
    let mut plain = array_at(bytes, IV_LEN);
    ctr(key, &iv, &mut plain);
    plain
}

/// `encipher` of two numbers, as 8 little-endian bytes each: the count and the contention factor of a block, or the
/// numbers of an anchor.
pub fn encipher_pair(key: &[u8; 32], iv: &[u8; 16], first: u64, second: u64) -> [u8; 32]
    ensures { result ≡ enciphered_pair key.now iv.now first second }
{
    encipher(key, iv, &pair_bytes(first, second))
}

/// The numbers of which `encipher_pair` makes these bytes.
pub fn decipher_pair(key: &[u8; 32], bytes: &[u8; 32]) -> (u64, u64)
    ensures { result ≡ deciphered_pair key.now bytes.now }
{
    pair_in(&decipher(key, bytes))
}

#[tactic(auto, unfolding(crate::specs::Enciphered::pair_bytes))]
fn pair_bytes(first: u64, second: u64) -> [u8; 16]
    ensures { result ≡ pair_bytes first second }
{
    let mut bytes = [0; 16];
    write_at(&mut bytes, 0, &first.to_le_bytes());
    write_at(&mut bytes, NUMBER_LEN, &second.to_le_bytes());
    bytes
}

#[tactic(auto, unfolding(crate::specs::Enciphered::pair_in))]
fn pair_in(bytes: &[u8; 16]) -> (u64, u64)
    ensures { result ≡ pair_in bytes.now }
{
    let first = u64::from_le_bytes(array_at(bytes, 0));
    let second = u64::from_le_bytes(array_at(bytes, NUMBER_LEN));
    (first, second)
}
