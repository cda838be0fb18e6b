//! The two lengths of a row's value.

ghost use Rattle.std.specs.Prelude.{◌≡◌, Some};
ghost use Rattle.qe_ecoc.specs.Forms.{cipher_bytes, cipher_from};

use qe_base::{array_at, bytes_of};

/// The cipher of a token, an IV before it, without or with a leaf byte.
#[derive(Clone, Copy, Debug, PartialEq, Eq)]
pub enum Cipher {
    /// A token alone.
    Old([u8; 48]),
    /// A token, and behind it 1 for an edge at the leaf level, 0 for another.
    Leaf([u8; 49]),
}

impl Cipher {
    /// The value that these bytes are. None where they have neither length.
    pub fn from_bytes(bytes: &[u8]) -> Option<Cipher>
        ensures { result ≡ cipher_from bytes.now }
    {
        match bytes.len() {
            48 => Some(Cipher::Old(array_at(bytes, 0))),
            49 => Some(Cipher::Leaf(array_at(bytes, 0))),
            _ => None,
        }
    }

    /// Its bytes, of which it is the value.
    pub fn bytes(&self) -> &[u8]
        ensures bytes { result.now ≡ cipher_bytes self.now }
        ensures again { cipher_from result.now ≡ Some self.now }
    {
        match self {
            Cipher::Old(bytes) => bytes_of(bytes),
            Cipher::Leaf(bytes) => bytes_of(bytes),
        }
    }
}
