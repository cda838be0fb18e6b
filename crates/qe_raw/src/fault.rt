//! Why a line is refused.

ghost use Rattle.std.specs.Prelude.{◌≡◌};
ghost use Rattle.qe_raw.specs.Faults.{fault_at};

use qe_base::{NoMemory, Text};
use qe_schema::{KeyFault, PlainFault, SchemaFault};

/// What is wrong with a line, in the order in which a line is judged.
#[derive(Drop)]
pub enum ScriptKind {
    /// No line is left for the header.
    NoHeader,
    /// It isn't JSON of at most 127 levels.
    NotJson,
    /// It is no object.
    NotObject,
    /// It has a name that isn't one of its command, or of the header.
    Unknown(Text),
    /// It lacks this name.
    Missing(Text),
    /// The value of this name hasn't its form, or the command doesn't fit and the value is at fault.
    BadValue(Text),
    /// The header's fields are no schema.
    Schema(SchemaFault),
    /// The header's keys don't serve its fields.
    Keys(KeyFault),
    /// The command has no meaning under the header's fields.
    Plain(PlainFault),
}

/// Why bytes are no script.
#[derive(Drop)]
pub enum ScriptFault {
    /// The number of the first faulty line, from 1, and the first of its faults.
    At { line: u64, kind: ScriptKind },
    /// There was no memory.
    NoMemory,
}

/// Why a line isn't read.
#[derive(Drop)]
pub enum LineFault {
    /// The first of its faults.
    Kind(ScriptKind),
    /// There was no memory.
    NoMemory,
}

impl LineFault {
    /// The fault at the line of this number.
    pub fn at(self, line: u64) -> ScriptFault
        ensures { result ≡ fault_at line self }
    {
        match self {
            LineFault::Kind(kind) => ScriptFault::At { line, kind },
            LineFault::NoMemory => ScriptFault::NoMemory,
        }
    }
}

impl From<NoMemory> for LineFault {
    ghost use Rattle.std.specs.Prelude.{◌≡◌};
    ghost use Rattle.qe_raw.specs.declared.fault.LineFault.TheVariants as f;

    ghost from_gives = { λ _ fault. fault ≡ f.NoMemory };

    fn from(_: NoMemory) -> Self {
        LineFault::NoMemory
    }
}

impl From<NoMemory> for ScriptFault {
    ghost use Rattle.std.specs.Prelude.{◌≡◌};
    ghost use Rattle.qe_raw.specs.declared.fault.ScriptFault.TheVariants as f;

    ghost from_gives = { λ _ fault. fault ≡ f.NoMemory };

    fn from(_: NoMemory) -> Self {
        ScriptFault::NoMemory
    }
}
