//! The compression of SHA-256 (FIPS 180-4, 6.2.2) in sixteen lanes.

ghost use Rattle.std.specs.Prelude.{◌≡◌, ℕ, ◌+◌, ◌-◌, ◌<◌, ◌≤◌, List, ◌∷◌, replicate, slice_index};
ghost use Rattle.sha2.specs.Sha256.{add32, temp1, temp2, small_sigma0, small_sigma1, rounds, schedule, compress};
ghost use Rattle.qe_lanes.specs.Lanes.{word_in, state_in, working, HasBlock, HasSchedule};

use crate::constants::ROUND_CONSTANTS;
use crate::words::{first_sum, scheduled, second_sum};

/// A word of each lane.
pub type Row = [u32; 16];

/// Takes a block into the hash value of each lane.
#[inline(never)]
pub fn compress(state: &mut [Row; 8], block: &[Row; 16])
    ensures { (lane : ℕ) (bytes : List ℕ) → lane < 16 → HasBlock block.now lane bytes
        → state_in state.new lane ≡ compress (state_in state.old lane) bytes }
{
    let mut w = [[0; 16]; 64];
    write_schedule(&mut w, block);
    let v = worked(state, &w);
    *state = [
        sums(&state[0], &v[0]),
        sums(&state[1], &v[1]),
        sums(&state[2], &v[2]),
        sums(&state[3], &v[3]),
        sums(&state[4], &v[4]),
        sums(&state[5], &v[5]),
        sums(&state[6], &v[6]),
        sums(&state[7], &v[7]),
    ];
}

// Writes the schedule of each lane's block.
#[inline(always)]
fn write_schedule(w: &mut [Row; 64], block: &[Row; 16])
    ensures { (lane : ℕ) (bytes : List ℕ) → lane < 16 → HasBlock block.now lane bytes → HasSchedule w.new lane bytes }
{
    w[..16].copy_from_slice(block);
    for t in 16..64 {
        w[t] = next_row(w, t);
    }
}

#[inline(always)]
fn next_row(w: &[Row; 64], t: usize) -> Row
    requires low { 16 ≤ t }
    requires high { t < 64 }
    ensures { (lane : ℕ) → lane < 16 → slice_index result lane ≡ add32 (add32 (add32 (small_sigma1 (word_in w.now (t - 2) lane)) (word_in w.now (t - 7) lane))
        (small_sigma0 (word_in w.now (t - 15) lane))) (word_in w.now (t - 16) lane) }
{
    let mut row = [0; 16];
    for i in 0..16 {
        row[i] = scheduled(w[t - 2][i], w[t - 7][i], w[t - 15][i], w[t - 16][i]);
    }
    row
}

// The working variables of each lane after the 64 rounds.
#[inline(always)]
fn worked(state: &[Row; 8], w: &[Row; 64]) -> [Row; 8]
    ensures { (lane : ℕ) (bytes : List ℕ) → lane < 16 → HasSchedule w.now lane bytes
        → state_in result lane ≡ rounds (state_in state.now lane) (schedule bytes 48) 64 }
{
    let mut a = history(state[0], state[1], state[2], state[3]);
    let mut e = history(state[4], state[5], state[6], state[7]);
    for t in 0..64 {
        let (next_a, next_e) = round(&a, &e, t, ROUND_CONSTANTS[t], &w[t]);
        a[t + 4] = next_a;
        e[t + 4] = next_e;
    }
    [a[67], a[66], a[65], a[64], e[67], e[66], e[65], e[64]]
}

// Room for a row a round behind the first four, the oldest first.
#[inline(always)]
fn history(newest: Row, second: Row, third: Row, oldest: Row) -> [Row; 68]
    ensures { result ≡ oldest ∷ third ∷ second ∷ newest ∷ replicate 64 (replicate 16 0) }
{
    let mut rows = [[0; 16]; 68];
    rows[0] = oldest;
    rows[1] = third;
    rows[2] = second;
    rows[3] = newest;
    rows
}

// `a` and `e` after a round.
#[inline(always)]
fn round(a: &[Row; 68], e: &[Row; 68], t: usize, k: u32, words: &Row) -> (Row, Row)
    requires { t < 64 }
    ensures a { (lane : ℕ) → lane < 16 → slice_index result.0 lane
        ≡ add32 (temp1 (working a.now e.now t lane) k (slice_index words.now lane)) (temp2 (working a.now e.now t lane)) }
    ensures e { (lane : ℕ) → lane < 16 → slice_index result.1 lane
        ≡ add32 (word_in a.now t lane) (temp1 (working a.now e.now t lane) k (slice_index words.now lane)) }
{
    let mut next_a = [0; 16];
    let mut next_e = [0; 16];
    for i in 0..16 {
        let first = first_sum(e[t + 3][i], e[t + 2][i], e[t + 1][i], e[t][i], k, words[i]);
        let second = second_sum(a[t + 3][i], a[t + 2][i], a[t + 1][i]);
        next_a[i] = first.wrapping_add(second);
        next_e[i] = a[t][i].wrapping_add(first);
    }
    (next_a, next_e)
}

#[inline(always)]
fn sums(x: &Row, y: &Row) -> Row
    ensures { (lane : ℕ) → lane < 16 → slice_index result lane ≡ add32 (slice_index x.now lane) (slice_index y.now lane) }
{
    let mut row = [0; 16];
    for i in 0..16 {
        row[i] = x[i].wrapping_add(y[i]);
    }
    row
}
