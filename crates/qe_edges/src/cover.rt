//! The cover of an interval.

ghost use Rattle.std.specs.Prelude.{◌≡◌, ◌^◌, ◌<◌, ◌≤◌, length, All, IfOk};
ghost use Rattle.qe_edges.specs.Rules.{bits_of};
ghost use Rattle.qe_edges.specs.Prefixes.{Lists, Rises, IsSpelled, lowest_of, IsCoverPrefix, IsInCover, cover_of, most_of_cover};
ghost use Rattle.qe_edges.specs.Walk.{Between, IsWidestAt};

use crate::{Domain, Edge, Edges};
use qe_base::NoMemory;
use std::alloc::Global;

/// The most prefixes that a cover has.
pub const MOST_OF_COVER: usize = 4096;

impl Domain {
    /// The cover of an interval, in rising order. The ends are cut with the domain; where nothing is left the cover is
    /// empty.
    pub fn cover(&self, alloc: Global, lo: i64, hi: i64) -> Result<Edges, NoMemory>
        ensures exact { IfOk result (λ cover. cover ≡ cover_of self.now lo hi) }
        ensures members { IfOk result (Lists (IsInCover self.now lo hi)) }
        ensures order { IfOk result (Rises (lowest_of self.now)) }
        ensures spelled { IfOk result (All IsSpelled) }
        ensures count { IfOk result (λ cover. length cover ≤ most_of_cover) }
    {
        let lo = lo.max(self.min());
        let hi = hi.min(self.max());
        if lo > hi {
            return Ok(Edges::new(alloc));
        }
        self.walk(alloc, self.offset(lo), self.offset(hi) + 1)
    }

    // The cover of the numbers from `first` to below `end`.
    fn walk(&self, alloc: Global, first: u128, end: u128) -> Result<Edges, NoMemory>
        requires { end ≤ 2 ^ bits_of self.now }
        ensures members { IfOk result (Lists (IsCoverPrefix self.now (Between first end))) }
        ensures order { IfOk result (Rises (lowest_of self.now)) }
        ensures spelled { IfOk result (All IsSpelled) }
        ensures count { IfOk result (λ cover. length cover ≤ most_of_cover) }
    {
        let bits = self.bits();
        let mut cover = Edges::new(alloc);
        let mut at = first;
        while at < end {
            let edge = self.widest_at(at, end);
            cover.push(edge)?;
            at += 1 << (bits - edge.len);
        }
        Ok(cover)
    }

    // The shortest stored prefix whose block begins at `at` and ends before `end`. A block of 2^h numbers begins there
    // where `at` has h zeros behind its last one, and ends before `end` where so many numbers are left.
    fn widest_at(&self, at: u128, end: u128) -> Edge
        requires begins { at < end }
        requires ends { end ≤ 2 ^ bits_of self.now }
        ensures { IsWidestAt self.now at end result }
    {
        let bits = self.bits();
        let height = at.trailing_zeros().min((end - at).ilog2());
        let len = self.level_from(bits - height);
        Edge {
            prefix: (at >> (bits - len)) as u64,
            len,
        }
    }
}
