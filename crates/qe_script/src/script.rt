//! What a script says.

ghost use Rattle.std.specs.Prelude.{◌≡◌};
ghost use Rattle.qe_script.specs.Script.{script_with};

use qe_base::{Listing, Texts};
use qe_schema::{Keys, PlainCommand, Schema};

/// What the first line says.
#[derive(Drop)]
pub struct Header {
    /// The fields that documents may have.
    pub schema: Schema,
    /// The encrypted fields' keys.
    pub keys: Keys,
    /// The seed of every random word.
    pub seed: [u8; 32],
    /// The callers' names, 1 to 16.
    pub callers: Texts,
    /// Whether replies are printed as their number and their hash.
    pub brief: bool,
    /// Whether edges carry the byte that tells leaves.
    pub leaf: bool,
}

/// A command, and the number of the caller that gives it, from 0.
#[derive(Drop)]
pub struct Line {
    pub caller: u32,
    pub command: PlainCommand,
}

/// Commands with their callers, in order.
pub type Lines = Listing<Line>;

/// A header, and the commands behind it.
#[derive(Drop)]
pub struct Script {
    pub schema: Schema,
    pub keys: Keys,
    pub seed: [u8; 32],
    pub callers: Texts,
    pub brief: bool,
    pub leaf: bool,
    pub lines: Lines,
}

impl Header {
    /// The script of this header and these lines.
    pub(crate) fn with(self, lines: Lines) -> Script
        ensures { result ≡ script_with self lines }
    {
        let seed = self.seed;
        Script {
            schema: self.schema,
            keys: self.keys,
            seed,
            callers: self.callers,
            brief: self.brief,
            leaf: self.leaf,
            lines,
        }
    }
}
