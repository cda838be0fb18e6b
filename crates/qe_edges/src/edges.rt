//! The edges of a value.

ghost use Rattle.std.specs.Prelude.{◌≡◌, ◌≤◌, length, All, IfOk};
ghost use Rattle.qe_edges.specs.Rules.{InDomain};
ghost use Rattle.qe_edges.specs.Prefixes.{Lists, Rises, IsSpelled, IsEdgeOf, edges_of, most_edges};

use crate::{Domain, Edge, Edges};
use qe_base::NoMemory;
use std::alloc::Global;

/// The most edges that a value has: one at each level of 64 digits, and the empty prefix.
pub const MOST_EDGES: usize = 65;

impl Domain {
    /// The edges of a value, shortest first.
    pub fn edges(&self, alloc: Global, v: i64) -> Result<Edges, NoMemory>
        requires { InDomain self.now v }
        ensures exact { IfOk result (λ edges. edges ≡ edges_of self.now v) }
        ensures members { IfOk result (Lists (IsEdgeOf self.now v)) }
        ensures order { IfOk result (Rises (λ e. e.len)) }
        ensures spelled { IfOk result (All IsSpelled) }
        ensures count { IfOk result (λ edges. length edges ≤ most_edges) }
    {
        let bits = self.bits();
        let number = self.offset(v);
        let mut edges = Edges::new(alloc);
        let mut level = 0;
        while level <= bits {
            let len = self.level_from(level);
            let prefix = (number >> (bits - len)) as u64;
            edges.push(Edge { prefix, len })?;
            level = len + 1;
        }
        Ok(edges)
    }
}
