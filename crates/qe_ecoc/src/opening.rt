//! What a row's value says.

ghost use Rattle.std.specs.Prelude.{◌≡◌, [], ◌∷◌, ◌++◌};
ghost use Rattle.qe_seal.specs.Enciphered.{enciphered, deciphered};
ghost use Rattle.qe_ecoc.specs.Opening.{written, opened};

use crate::{Cipher, Entry};
use qe_aes::ctr;
use qe_base::{array_at, write_at};
use qe_tokens::EcocToken;

/// The length of an IV, in bytes.
const IV_LEN: usize = 16;

/// The length of a token, in bytes.
const TOKEN_LEN: usize = 32;

/// A word's token of rows, and its leaf byte, if there is one.
#[derive(Clone, Copy, Debug, PartialEq, Eq)]
pub struct Opened {
    /// The token.
    pub token: [u8; 32],
    /// 1 for an edge at the leaf level.
    pub leaf: Option<u8>,
}

/// What a row says, under its field's token. It takes no memory.
pub fn open_entry(entry: &Entry, token: &EcocToken) -> Opened
    ensures { result ≡ opened token.now.0 entry.now.value }
{
    match &entry.value {
        Cipher::Old(bytes) => Opened {
            token: open_old(&token.0, bytes),
            leaf: None,
        },
        Cipher::Leaf(bytes) => {
            let plain = open_leaf(&token.0, bytes);
            Opened {
                token: array_at(&plain, 0),
                leaf: Some(plain[TOKEN_LEN]),
            }
        }
    }
}

/// The value that says this under the field's token. It takes no memory.
pub fn make_cipher(key: &EcocToken, iv: &[u8; 16], token: &[u8; 32], leaf: Option<u8>) -> Cipher
    ensures { result ≡ written key.now.0 iv.now token.now leaf }
{
    match leaf {
        None => Cipher::Old(write_old(&key.0, iv, token)),
        Some(leaf) => Cipher::Leaf(write_leaf(&key.0, iv, token, leaf)),
    }
}

fn write_old(key: &[u8; 32], iv: &[u8; 16], token: &[u8; 32]) -> [u8; 48]
    ensures { result ≡ enciphered key.now iv.now token.now }
{
    let mut cipher = *token;
    ctr(key, iv, &mut cipher);
    let mut bytes = [0; 48];
    write_at(&mut bytes, 0, iv);
    write_at(&mut bytes, IV_LEN, &cipher);
    bytes
}

fn write_leaf(key: &[u8; 32], iv: &[u8; 16], token: &[u8; 32], leaf: u8) -> [u8; 49]
    ensures { result ≡ enciphered key.now iv.now (token.now ++ leaf ∷ []) }
{
    let mut cipher = [leaf; 33];
    write_at(&mut cipher, 0, token);
    ctr(key, iv, &mut cipher);
    let mut bytes = [0; 49];
    write_at(&mut bytes, 0, iv);
    write_at(&mut bytes, IV_LEN, &cipher);
    bytes
}

fn open_old(key: &[u8; 32], bytes: &[u8; 48]) -> [u8; 32]
    ensures { result ≡ deciphered key.now bytes.now }
{
    let iv = array_at(bytes, 0);
    let mut plain = array_at(bytes, IV_LEN);
    ctr(key, &iv, &mut plain);
    plain
}

fn open_leaf(key: &[u8; 32], bytes: &[u8; 49]) -> [u8; 33]
    ensures { result ≡ deciphered key.now bytes.now }
{
    let iv = array_at(bytes, 0);
    let mut plain = array_at(bytes, IV_LEN);
    ctr(key, &iv, &mut plain);
    plain
}
