//! Prefixes and their texts.

ghost use Rattle.std.specs.Prelude.{◌≡◌, ◌≤◌, length, take};
ghost use Rattle.qe_edges.specs.Texts.{text_of};

use qe_base::{Duplicate, Listing, NoMemory};

/// A prefix of a value's string: its number of digits, and the number that they spell, highest digit first.
#[derive(Clone, Copy, Debug, PartialEq, Eq)]
pub struct Edge {
    pub prefix: u64,
    pub len: u32,
}

/// Prefixes.
pub type Edges = Listing<Edge>;

impl Edge {
    /// Writes the text that is hashed at the front of `into`, and answers its length: `root` for the empty prefix,
    /// else its digits `0` and `1`.
    pub fn text(&self, into: &mut [u8; 64]) -> usize
        requires { self.now.len ≤ 64 }
        ensures length { result ≡ length (text_of self.now) }
        ensures text { take result into.new ≡ text_of self.now }
    {
        if self.len == 0 {
            into[..4].copy_from_slice(b"root");
            return 4;
        }
        let len = self.len as usize;
        for place in 0..len {
            let digit = self.prefix >> (len - 1 - place) & 1;
            into[place] = b'0' + digit as u8;
        }
        len
    }
}

impl Duplicate for Edge {
    fn copy(&self) -> Result<Self, NoMemory> {
        Ok(*self)
    }
}
