//! The rounds of the cipher and of its inverse, under an expanded key.

ghost use Rattle.std.specs.Prelude.{◌≡◌};
ghost use Rattle.qe_aes.specs.Cipher.{cipher, inv_cipher};
ghost use Rattle.qe_aes.specs.Words.{words_of};

use crate::schedule::{KeySchedule, ROUNDS};
use crate::state::State;

/// CIPHER.
pub(crate) fn cipher(words: &KeySchedule, block: [u8; 16]) -> [u8; 16]
    ensures { result ≡ cipher (words_of words.now) block }
{
    // The first round stands before the loop: otherwise LLVM packs the columns into one vector register and
    // takes them out again in each round, which costs a third of the speed.
    let start = State::load(block).add_round_key(words, 0);
    let mut state = start.round(words, 1);
    for n in 2..ROUNDS {
        let next = state.round(words, n);
        state = next;
    }
    state.sub_shift().add_round_key(words, ROUNDS).store()
}

/// INVCIPHER.
pub(crate) fn inv_cipher(words: &KeySchedule, block: [u8; 16]) -> [u8; 16]
    ensures { result ≡ inv_cipher (words_of words.now) block }
{
    let mut state = State::load(block).add_round_key(words, ROUNDS);
    for n in (1..ROUNDS).rev() {
        let next = state.inv_round(words, n);
        state = next;
    }
    state.inv_shift_sub().add_round_key(words, 0).store()
}
