//! Hashes, one at a time and sixteen at once.

use crate::work::{Outcome, last_block};
use qe_base::array_at;
use qe_lanes::{LaneKeys, Row, compress};
use qe_seal::HmacKey;
use sha2::{Digest, Sha256};

// The key of every lane.
const KEY: [u8; 32] = [7; 32];

/// Digests of 32 bytes, each of the one before: a turn is a compression.
pub fn digests(turns: u64) -> Outcome {
    let mut last = [0; 32];
    for _ in 0..turns {
        let next = Sha256::digest(&last);
        last = next;
    }
    outcome(&last, 32)
}

/// Compressions, sixteen at once, each of the hash values before: a turn is one of sixteen.
pub fn compressions(turns: u64) -> Outcome {
    let mut state = [[1; 16]; 8];
    for _ in 0..turns / 16 {
        let block = doubled(&state);
        compress(&mut state, &block);
    }
    let mut bytes = [0; 16];
    for (i, row) in state.iter().enumerate().take(4) {
        bytes[4 * i..4 * i + 4].copy_from_slice(&row[15].to_be_bytes());
    }
    Outcome {
        last: bytes,
        bytes: 64,
    }
}

fn doubled(state: &[Row; 8]) -> [Row; 16] {
    let mut block = [[0; 16]; 16];
    block[..8].copy_from_slice(state);
    block[8..].copy_from_slice(state);
    block
}

/// `prf1` under a kept key, of a number of the result before.
pub fn kept_macs(turns: u64) -> Outcome {
    let key = HmacKey::new(&KEY);
    let mut last = [0; 32];
    for _ in 0..turns {
        let next = key.prf1(u64::from_le_bytes(array_at(&last, 0)));
        last = next;
    }
    outcome(&last, 8)
}

/// The same, sixteen at once: a turn is one of sixteen.
pub fn mac_lanes(turns: u64) -> Outcome {
    let keys = LaneKeys::new(&[KEY; 16]);
    let mut last = [[0; 32]; 16];
    for _ in 0..turns / 16 {
        let next = keys.prf1(&numbers_of(&last));
        last = next;
    }
    outcome(&last[15], 8)
}

fn numbers_of(macs: &[[u8; 32]; 16]) -> [u64; 16] {
    let mut numbers = [0; 16];
    for i in 0..16 {
        numbers[i] = u64::from_le_bytes(array_at(&macs[i], 0));
    }
    numbers
}

fn outcome(last: &[u8; 32], bytes: usize) -> Outcome {
    Outcome {
        last: last_block(last),
        bytes,
    }
}
