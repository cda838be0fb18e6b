//! The random words of a command, taken one after another.

ghost use Rattle.std.specs.Prelude.{◌≡◌, ◌+◌, ◌*◌, ◌^◌, ◌<◌, ◌%◌, IfOk, OnOk};
ghost use Rattle.qe_encodes.specs.Draws.{draw_at, number_at, iv_at, ivs_from};
ghost use Rattle.qe_keyring.specs.Drawing.{further};

use qe_base::{NoMemory, Nonces};
use rand_chacha::ChaCha20Rng;
use rand_core::SeedableRng;
use rand_core::utils::NextWord;
use std::alloc::Global;
use std::marker::Model;

/// What a word is multiplied by that stands behind another.
const NEXT: u64 = 1 << 32;

/// The words of a command from a place on: a stream of ChaCha20 (RFC 8439, with a counter and a nonce of 64 bits) under the
/// key of a caller, whose number is the command's.
#[derive(Drop)]
pub struct Draws {
    key: [u8; 32],
    number: u64,
    words: ChaCha20Rng,
}

impl Model for Draws {
    ghost use Rattle.qe_keyring.specs.Drawing.{Drawing};

    ghost Value = { Drawing };

    ghost use Rattle.std.specs.Prelude.{◌≡◌};
    ghost use Rattle.rand_chacha.specs.ChaCha.{key_of};

    ghost view = { λ d. record { stream = record { key = d.key; number = d.number }; place = d.words.word_pos } };

    ghost invariant = { λ d. d.words ≡ record { key = key_of d.key; stream = d.number; word_pos = d.words.word_pos } };
}

impl Draws {
    /// The words of the command of a number, from a place on.
    pub fn at(key: &[u8; 32], number: u64, place: u64) -> Draws
        ensures { result ≡ record { stream = record { key = key.now; number = number }; place = place } }
    {
        let mut words = ChaCha20Rng::from_seed(*key);
        words.set_stream(number);
        words.set_word_pos(u128::from(place));
        Draws {
            key: *key,
            number,
            words,
        }
    }

    /// The place of the next word.
    pub fn place(&self) -> u64
        requires { self.now.place < 2 ^ 64 }
        ensures { result ≡ self.now.place }
    {
        self.words.get_word_pos() as u64
    }

    // The next word.
    #[tactic(auto, unfolding(qe_encodes::specs::Draws::draw_at))]
    fn word(&mut self) -> u32
        requires { self.old.place + 1 < 2 ^ 68 }
        ensures word { result ≡ draw_at self.old.stream self.old.place }
        ensures next { self.new ≡ further self.old 1 }
    {
        self.words.next_word()
    }

    // A number of two words, the lower one first.
    fn number(&mut self) -> u64
        requires { self.old.place + 2 < 2 ^ 68 }
        ensures number { result ≡ number_at self.old.stream self.old.place }
        ensures next { self.new ≡ further self.old 2 }
    {
        let low = self.word();
        let high = self.word();
        u64::from(low) + NEXT * u64::from(high)
    }

    /// A contention factor up to a number, of two words.
    pub fn factor(&mut self, most: u64) -> u64
        requires place { self.old.place + 2 < 2 ^ 68 }
        requires most { most < 2 ^ 63 }
        ensures factor { result ≡ number_at self.old.stream self.old.place % (most + 1) }
        ensures next { self.new ≡ further self.old 2 }
    {
        self.number() % (most + 1)
    }

    /// An IV, of four words, each with its lowest byte first.
    pub fn iv(&mut self) -> [u8; 16]
        requires { self.old.place + 4 < 2 ^ 68 }
        ensures iv { result ≡ iv_at self.old.stream self.old.place }
        ensures next { self.new ≡ further self.old 4 }
    {
        let a = self.word().to_le_bytes();
        let b = self.word().to_le_bytes();
        let c = self.word().to_le_bytes();
        let d = self.word().to_le_bytes();
        [
            a[0], a[1], a[2], a[3], b[0], b[1], b[2], b[3], c[0], c[1], c[2], c[3], d[0], d[1],
            d[2], d[3],
        ]
    }

    /// So many IVs.
    pub fn ivs(&mut self, alloc: Global, count: usize) -> Result<Nonces, NoMemory>
        requires { self.old.place + 4 * count < 2 ^ 68 }
        ensures ivs { IfOk result (λ ivs. ivs ≡ ivs_from self.old.stream count self.old.place) }
        ensures next { OnOk result (self.new ≡ further self.old (4 * count)) }
    {
        let mut ivs = Nonces::new(alloc);
        for _ in 0..count {
            ivs.push(self.iv())?;
        }
        Ok(ivs)
    }
}
