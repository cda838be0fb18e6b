//! Blocks of sixteen lanes: the pads of keys, and the ends of short messages with their padding (FIPS 180-4, 5.1.1).

ghost use Rattle.std.specs.Prelude.{◌≡◌, ℕ, ◌+◌, ◌<◌, ◌≤◌, ◌++◌, List, [], length, slice_index};
ghost use Rattle.std.specs.Int.{w64, to_le_bytes};
ghost use Rattle.std.specs.List.{slice_index_or};
ghost use Rattle.sha2.specs.Sha256.{compress, digest_bytes, padding, word_at};
ghost use Rattle.qe_seal.specs.Hmac.{key_block, padded_block};
ghost use Rattle.qe_lanes.specs.Lanes.{state_in, HasBlock};

use crate::compression::Row;

/// The row that begins the padding: a bit 1, then zeros.
const PADDING: Row = [0x8000_0000; 16];

const ZEROS: Row = [0; 16];

/// The block of each lane's key, combined with a pad.
pub(crate) fn pad_block(keys: &[[u8; 32]; 16], pad: u8) -> [Row; 16]
    ensures { (lane : ℕ) → lane < 16 → HasBlock result lane (padded_block pad (key_block (slice_index_or keys.now lane []))) }
{
    let mut block = [ZEROS; 16];
    for k in 0..16 {
        block[k] = pad_row(keys, pad, 4 * k);
    }
    block
}

fn pad_row(keys: &[[u8; 32]; 16], pad: u8, at: usize) -> Row
    requires { at + 4 ≤ 64 }
    ensures { (lane : ℕ) → lane < 16 → slice_index result lane ≡ word_at (padded_block pad (key_block (slice_index_or keys.now lane []))) at }
{
    let mut row = ZEROS;
    for i in 0..16 {
        row[i] = pad_word(&keys[i], pad, at);
    }
    row
}

fn pad_word(key: &[u8; 32], pad: u8, at: usize) -> u32
    requires { at + 4 ≤ 64 }
    ensures { result ≡ word_at (padded_block pad (key_block key.now)) at }
{
    u32::from_be_bytes([
        pad_byte(key, pad, at),
        pad_byte(key, pad, at + 1),
        pad_byte(key, pad, at + 2),
        pad_byte(key, pad, at + 3),
    ])
}

fn pad_byte(key: &[u8; 32], pad: u8, at: usize) -> u8
    requires { at < 64 }
    ensures { result ≡ slice_index (padded_block pad (key_block key.now)) at }
{
    if at < 32 { key[at] ^ pad } else { pad }
}

/// The last block of 64 bytes and a number of 8 bytes, the lowest first.
pub(crate) fn number_block(numbers: &[u64; 16]) -> [Row; 16]
    ensures { (lane : ℕ) → lane < 16 → HasBlock result lane (to_le_bytes w64 (slice_index numbers.now lane) ++ padding 72) }
{
    [
        number_row(numbers, 0),
        number_row(numbers, 4),
        PADDING,
        ZEROS,
        ZEROS,
        ZEROS,
        ZEROS,
        ZEROS,
        ZEROS,
        ZEROS,
        ZEROS,
        ZEROS,
        ZEROS,
        ZEROS,
        ZEROS,
        [576; 16],
    ]
}

/// The last block of 64 bytes and two such numbers.
pub(crate) fn pair_block(firsts: &[u64; 16], seconds: &[u64; 16]) -> [Row; 16]
    ensures { (lane : ℕ) → lane < 16
        → HasBlock result lane ((to_le_bytes w64 (slice_index firsts.now lane) ++ to_le_bytes w64 (slice_index seconds.now lane)) ++ padding 80) }
{
    [
        number_row(firsts, 0),
        number_row(firsts, 4),
        number_row(seconds, 0),
        number_row(seconds, 4),
        PADDING,
        ZEROS,
        ZEROS,
        ZEROS,
        ZEROS,
        ZEROS,
        ZEROS,
        ZEROS,
        ZEROS,
        ZEROS,
        ZEROS,
        [640; 16],
    ]
}

fn number_row(numbers: &[u64; 16], at: usize) -> Row
    requires { at + 4 ≤ 8 }
    ensures { (lane : ℕ) → lane < 16 → slice_index result lane ≡ word_at (to_le_bytes w64 (slice_index numbers.now lane)) at }
{
    let mut row = ZEROS;
    for i in 0..16 {
        row[i] = number_word(numbers[i], at);
    }
    row
}

#[inline(always)]
fn number_word(number: u64, at: usize) -> u32
    requires { at + 4 ≤ 8 }
    ensures { result ≡ word_at (to_le_bytes w64 number) at }
{
    let bytes = number.to_le_bytes();
    u32::from_be_bytes([bytes[at], bytes[at + 1], bytes[at + 2], bytes[at + 3]])
}

/// The last block of 64 bytes and the digest of each lane's hash value.
pub(crate) fn digest_block(state: &[Row; 8]) -> [Row; 16]
    ensures { (lane : ℕ) (before block : List ℕ) → lane < 16 → state_in state.now lane ≡ compress before block
        → HasBlock result lane (digest_bytes (compress before block) 8 ++ padding 96) }
{
    [
        state[0], state[1], state[2], state[3], state[4], state[5], state[6], state[7], PADDING,
        ZEROS, ZEROS, ZEROS, ZEROS, ZEROS, ZEROS, [768; 16],
    ]
}
