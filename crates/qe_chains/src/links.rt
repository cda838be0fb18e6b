//! The pairs of a tag or of a document, one after another.

ghost use Rattle.std.specs.Prelude.{◌≡◌, ◌++◌, [], IfNone, option_to_list, List, ℕ};
ghost use Rattle.qe_chains.specs.Nodes.{pairs_from};
ghost use Rattle.qe_chains.specs.Sound.{Way};

use crate::nodes::{Node, Side};
use std::marker::Model;

/// Pairs that are read one after another, in the order of linking, without memory. Contracts see those that are left.
#[derive(Drop)]
pub struct Links<'a> {
    nodes: &'a [Node],
    side: Side,
    at: Option<usize>,
}

impl<'a> Model for Links<'a> {
    ghost use Rattle.std.specs.Prelude.{ℕ, List};

    ghost Value = { List (List ℕ × ℕ) };

    ghost use Rattle.qe_chains.specs.Nodes.{pairs_from};
    ghost use Rattle.qe_chains.specs.Sound.{Way};

    ghost view = { λ a. pairs_from a.nodes.now a.side a.at };

    ghost invariant = { λ a. (xs : List ℕ) × Way a.nodes.now a.side a.at xs };
}

impl<'a> Links<'a> {
    // The pairs from a node on, along the links of a side.
    pub(crate) fn from(nodes: &'a [Node], side: Side, at: Option<usize>) -> Links<'a>
        requires { (xs : List ℕ) × Way nodes.now side at xs }
        ensures { result ≡ pairs_from nodes.now side at }
    {
        Links { nodes, side, at }
    }

    /// The next pair, if one is left.
    pub fn next(&mut self) -> Option<([u8; 32], u64)>
        ensures next { self.old ≡ option_to_list result ++ self.new }
        ensures end { IfNone result (self.new ≡ []) }
    {
        let node = self.nodes[self.at?];
        self.at = node.place(self.side).after;
        Some((node.tag, node.doc))
    }
}
