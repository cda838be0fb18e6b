//! HMAC-SHA-256 (RFC 2104) of sixteen messages at once, each under a key of its own.

ghost use Rattle.std.specs.Prelude.{◌≡◌, ◌≢◌, ℕ, ◌+◌, ◌<◌, ◌++◌, List, [], length, slice_index};
ghost use Rattle.std.specs.List.{slice_index_or};
ghost use Rattle.sha2.specs.Sha256.{digest_bytes, padding};
ghost use Rattle.qe_seal.specs.Hmac.{hmac_sha256, prf1_of, prf2_of};
ghost use Rattle.qe_lanes.specs.Lanes.{state_in, HasBlock};

use crate::blocks::{digest_block, number_block, pad_block, pair_block};
use crate::compression::{Row, compress};
use crate::constants::INITIAL;
use qe_base::write_at;

/// The byte of the inner pad.
const IPAD: u8 = 0x36;

/// The byte of the outer pad.
const OPAD: u8 = 0x5c;

/// A key of HMAC-SHA-256 with its two pads hashed, in 64 bytes, to be put in a lane.
#[derive(Clone, Copy)]
pub struct LaneKey {
    inner: [u32; 8],
    outer: [u32; 8],
}

/// Sixteen such keys, each in a lane of its own.
#[derive(Clone, Copy)]
pub struct LaneKeys {
    inner: [Row; 8],
    outer: [Row; 8],
}

impl LaneKeys {
    ghost use Rattle.qe_lanes.specs.Keys.{IsKeyedBy, IsKeyedIn};

    /// Hashes the pads of sixteen keys.
    pub fn new(keys: &[[u8; 32]; 16]) -> LaneKeys
        ensures { (lane : ℕ) → lane < 16 → IsKeyedIn result lane (slice_index_or keys.now lane []) }
    {
        let mut inner = INITIAL;
        let mut outer = INITIAL;
        compress(&mut inner, &pad_block(keys, IPAD));
        compress(&mut outer, &pad_block(keys, OPAD));
        LaneKeys { inner, outer }
    }

    /// The key in a lane.
    pub fn key(&self, lane: usize) -> LaneKey
        requires { lane < 16 }
        ensures { (key : List ℕ) → IsKeyedIn self.now lane key → IsKeyedBy result key }
    {
        LaneKey {
            inner: column(&self.inner, lane),
            outer: column(&self.outer, lane),
        }
    }

    /// Puts a key in a lane; the other lanes keep theirs.
    pub fn set(&mut self, lane: usize, key: &LaneKey)
        requires { lane < 16 }
        ensures put { (bytes : List ℕ) → IsKeyedBy key.now bytes → IsKeyedIn self.new lane bytes }
        ensures kept { (other : ℕ) (bytes : List ℕ) → other ≢ lane → IsKeyedIn self.old other bytes → IsKeyedIn self.new other bytes }
    {
        put_column(&mut self.inner, lane, &key.inner);
        put_column(&mut self.outer, lane, &key.outer);
    }

    /// `prf1` of qe_seal in each lane: HMAC-SHA-256 of one number, as 8 little-endian bytes.
    pub fn prf1(&self, numbers: &[u64; 16]) -> [[u8; 32]; 16]
        ensures { (lane : ℕ) (key : List ℕ) → lane < 16 → IsKeyedIn self.now lane key
            → slice_index_or result lane [] ≡ prf1_of key (slice_index numbers.now lane) }
    {
        digests(&self.mac(&number_block(numbers)))
    }

    /// `prf2` of qe_seal in each lane: HMAC-SHA-256 of two numbers, as 8 little-endian bytes each.
    pub fn prf2(&self, firsts: &[u64; 16], seconds: &[u64; 16]) -> [[u8; 32]; 16]
        ensures { (lane : ℕ) (key : List ℕ) → lane < 16 → IsKeyedIn self.now lane key
            → slice_index_or result lane [] ≡ prf2_of key (slice_index firsts.now lane) (slice_index seconds.now lane) }
    {
        digests(&self.mac(&pair_block(firsts, seconds)))
    }

    // The hash value of each lane's HMAC, whose message fills one block with its padding.
    fn mac(&self, block: &[Row; 16]) -> [Row; 8]
        ensures { (lane : ℕ) (key message : List ℕ) → lane < 16 → IsKeyedIn self.now lane key
            → length (message ++ padding (64 + length message)) ≡ 64 → HasBlock block.now lane (message ++ padding (64 + length message))
            → digest_bytes (state_in result lane) 8 ≡ hmac_sha256 key message }
    {
        let mut inner = self.inner;
        compress(&mut inner, block);
        let mut outer = self.outer;
        compress(&mut outer, &digest_block(&inner));
        outer
    }
}

fn column(rows: &[Row; 8], lane: usize) -> [u32; 8]
    requires { lane < 16 }
    ensures { result ≡ state_in rows.now lane }
{
    [
        rows[0][lane],
        rows[1][lane],
        rows[2][lane],
        rows[3][lane],
        rows[4][lane],
        rows[5][lane],
        rows[6][lane],
        rows[7][lane],
    ]
}

fn put_column(rows: &mut [Row; 8], lane: usize, state: &[u32; 8])
    requires { lane < 16 }
    ensures put { state_in rows.new lane ≡ state.now }
    ensures kept { (other : ℕ) → other ≢ lane → state_in rows.new other ≡ state_in rows.old other }
{
    for k in 0..8 {
        put(&mut rows[k], lane, state[k]);
    }
}

fn put(row: &mut Row, lane: usize, word: u32)
    requires { lane < 16 }
    ensures put { slice_index row.new lane ≡ word }
    ensures kept { (other : ℕ) → other ≢ lane → slice_index row.new other ≡ slice_index row.old other }
{
    row[lane] = word;
}

// The digest of each lane's hash value.
fn digests(state: &[Row; 8]) -> [[u8; 32]; 16]
    ensures { (lane : ℕ) → lane < 16 → slice_index_or result lane [] ≡ digest_bytes (state_in state.now lane) 8 }
{
    let mut all = [[0; 32]; 16];
    for i in 0..16 {
        all[i] = digest(&column(state, i));
    }
    all
}

// The bytes of a hash value, each word with its high byte first.
fn digest(state: &[u32; 8]) -> [u8; 32]
    ensures { result ≡ digest_bytes state.now 8 }
{
    let mut bytes = [0; 32];
    for i in 0..8 {
        write_at(&mut bytes, 4 * i, &state[i].to_be_bytes());
    }
    bytes
}
