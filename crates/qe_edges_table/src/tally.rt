ghost use Rattle.std.specs.Prelude.{All};
ghost use Rattle.qe_edges.specs.Prefixes.{IsSpelled};

use qe_edges::Edges;

/// How many prefixes there were, and the 64-bit FNV-1a hash of their texts, with a blank behind each and a line's end
/// behind each list.
#[derive(Clone, Copy)]
pub struct Tally {
    pub prefixes: u64,
    pub hash: u64,
}

impl Tally {
    pub fn new() -> Tally {
        Tally {
            prefixes: 0,
            hash: 0xcbf2_9ce4_8422_2325,
        }
    }

    /// Takes a list.
    pub fn take(&mut self, edges: &Edges)
        requires { All IsSpelled edges.now }
    {
        for edge in edges.slice() {
            let mut text = [0; 64];
            let len = edge.text(&mut text);
            self.hash(&text[..len]);
            self.hash(b" ");
            self.prefixes = self.prefixes.wrapping_add(1);
        }
        self.hash(b"\n");
    }

    fn hash(&mut self, bytes: &[u8]) {
        for byte in bytes {
            self.hash = (self.hash ^ u64::from(*byte)).wrapping_mul(0x0000_0100_0000_01b3);
        }
    }
}
