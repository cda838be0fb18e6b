//! The levels at which prefixes are stored.

ghost use Rattle.std.specs.Prelude.{◌≡◌, ◌+◌, ◌^◌, ◌<◌, ◌≤◌, min, max};
ghost use Rattle.std.specs.Int.{next_multiple_of};
ghost use Rattle.qe_edges.specs.Rules.{bits_of, IsShortestFrom};

use crate::Domain;

/// The shortest stored level of at least `level` digits: the next multiple of the sparsity, or the whole string.
pub(crate) fn stored_from(level: u32, bits: u32, sparsity: u32, trim: u32) -> u32
    requires level { level ≤ bits }
    requires bits { bits ≤ 64 }
    requires sparsity { (1 ≤ sparsity) × (sparsity ≤ 8) }
    requires trim { trim < bits }
    ensures { result ≡ min (next_multiple_of (max level trim) sparsity) bits }
{
    level.max(trim).next_multiple_of(sparsity).min(bits)
}

impl Domain {
    /// The shortest stored level of at least `level` digits.
    pub(crate) fn level_from(&self, level: u32) -> u32
        requires { level ≤ bits_of self.now }
        ensures { IsShortestFrom self.now level result }
    {
        stored_from(level, self.bits(), self.sparsity(), self.trim())
    }
}
