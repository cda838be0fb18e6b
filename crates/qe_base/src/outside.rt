//! What a program meets outside: where bytes come from, where they go, and when a caller goes on.

ghost use Rattle.std.specs.Prelude.{ℕ, ◌<◌, List, Option, length, IfOk};
ghost use Rattle.std.specs.Io.{ReadsAtMost, WritesAtMost};
ghost use Rattle.std.specs.Io.KnownBytes.{ReadConsumes, WriteAppends};
ghost use Rattle.qe_base.specs.Faults.{HasCause};

use crate::Failed;

/// Where bytes come from.
pub trait Source {
    /// The bytes that are left, where the source tells them.
    ghost left: { Self → Option (List ℕ) };

    /// How often the source has failed. The count stops at 2^64 - 1.
    ghost faults: { Self → ℕ };

    /// Puts the next bytes at the front of `into` and answers their number. 0 is the end, where `into` has room.
    fn read(&mut self, into: &mut [u8]) -> Result<usize, Failed>
        ensures bound { ReadsAtMost result into.new }
        ensures bytes { ReadConsumes (left self.old) (left self.new) result into.new }
        ensures cause { HasCause (faults self.old) (faults self.new) result };
}

/// Where bytes go.
pub trait Sink {
    /// The bytes that it holds, where the sink tells them.
    ghost holds: { Self → Option (List ℕ) };

    /// How often the sink has failed. The count stops at 2^64 - 1.
    ghost faults: { Self → ℕ };

    /// Takes the first bytes of a piece and answers their number, which is 0 only for an empty piece.
    fn put(&mut self, piece: &[u8]) -> Result<usize, Failed>
        ensures bound { WritesAtMost result piece.now }
        ensures some { IfOk result (λ count. 0 < length piece.now → 0 < count) }
        ensures bytes { WriteAppends (holds self.old) (holds self.new) result piece.now }
        ensures cause { HasCause (faults self.old) (faults self.new) result };
}

/// Stands before and behind each command of a caller. It tells nothing, and changes nothing that the program reads.
pub trait Gate {
    /// The caller is about to send its command of this number.
    fn before(&self, caller: u32, command: u64);

    /// The caller's command of this number was answered.
    fn answered(&self, caller: u32, command: u64);
}

/// A gate that lets everyone through at once.
#[derive(Clone, Copy, Debug)]
pub struct FreeGate;

impl Gate for FreeGate {
    fn before(&self, _caller: u32, _command: u64) {}

    fn answered(&self, _caller: u32, _command: u64) {}
}
