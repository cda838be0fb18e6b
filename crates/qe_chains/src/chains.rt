//! The pairs themselves, linked and unlinked.

ghost use Rattle.std.specs.Prelude.{◌≡◌, ◌+◌, ◌<◌, ◌≤◌, ◌∷◌, ◌++◌, [], max, length, true, false, IfOk, OnOk};
ghost use Rattle.qe_chains.specs.Nodes.{first_of};
ghost use Rattle.qe_chains.specs.Pairs.{with_the_tag, documents_with, of_document, tags_of, of_others};

use crate::ends::{copy_docs, copy_tags, put_ends, set_ends};
use crate::links::Links;
use crate::nodes::{Ends, Node, Side, Sides, hook_all, release, take_node};
use qe_base::{NoMemory, Numbers, Steps, Tags};
use std::alloc::Global;
use std::collections::HashMap;
use std::marker::Model;
use std::sync::ledger::Ledger;

/// Pairs of a tag and a document's number. Contracts see them as a list in the order of linking.
#[derive(Drop)]
pub struct Chains {
    alloc: Global,
    nodes: Vec<Node>,
    all: Option<Ends>,
    free: Option<usize>,
    tags: HashMap<[u8; 32], Ends>,
    docs: HashMap<u64, Ends>,
}

impl Model for Chains {
    ghost use Rattle.std.specs.Prelude.{◌-◌, ℕ, List, length, min, bytes_eq, nat_eq, vec_capacity};
    ghost use Rattle.std.specs.HashMap.{get, spare};
    ghost use Rattle.qe_chains.specs.Pairs.{Listed};

    ghost Value = { Listed };

    ghost use Rattle.qe_chains.specs.declared.nodes.Side.TheVariants.{All};
    ghost use Rattle.qe_chains.specs.Nodes.{first_of, pairs_from};
    ghost use Rattle.qe_chains.specs.Sound.{IsSound};

    ghost view = { λ a. let listed = pairs_from a.nodes.items All (first_of a.all) in
        record { pairs = listed; nodes = length a.nodes.items; room = min (spare a.tags) (min (spare a.docs) (vec_capacity a.nodes - length listed)) } };

    ghost invariant = { λ a. IsSound a.nodes.items a.all a.free (get bytes_eq a.tags) (get nat_eq a.docs) };
}

impl Chains {
    /// No pairs.
    pub fn new(alloc: Global) -> Chains
        ensures pairs { result.pairs ≡ [] }
        ensures nodes { result.nodes ≡ 0 }
    {
        Chains {
            alloc,
            nodes: Vec::new(alloc),
            all: None,
            free: None,
            tags: HashMap::new(alloc),
            docs: HashMap::new(alloc),
        }
    }

    /// Makes room for so many more pairs.
    pub fn reserve(&mut self, pairs: usize) -> Result<(), NoMemory>
        ensures pairs { self.new.pairs ≡ self.old.pairs }
        ensures nodes { self.new.nodes ≡ self.old.nodes }
        ensures ok { OnOk result (pairs ≤ self.new.room) }
        ensures room { self.old.room ≤ self.new.room }
    {
        self.nodes.reserve(pairs)?;
        self.tags.reserve(pairs)?;
        self.docs.reserve(pairs)?;
        Ok(())
    }

    /// Adds a pair at the end. Takes no memory.
    pub fn link(&mut self, tag: [u8; 32], doc: u64)
        requires { 0 < self.old.room }
        ensures pairs { self.new.pairs ≡ self.old.pairs ++ (tag, doc) ∷ [] }
        ensures nodes { self.new.nodes ≡ max self.old.nodes (length self.new.pairs) }
        ensures room { self.old.room ≤ self.new.room + 1 }
    {
        let at = take_node(&mut self.nodes, &mut self.free, tag, doc);
        let held = Sides {
            all: self.all,
            by_tag: self.tags.get(&tag).copied(),
            by_doc: self.docs.get(&doc).copied(),
        };
        let ends = hook_all(&mut self.nodes, held, at);
        self.all = Some(ends.all);
        put_ends(&mut self.tags, tag, ends.by_tag);
        put_ends(&mut self.docs, doc, ends.by_doc);
    }

    // Takes the first pair of a document out, if it has one.
    fn unlink_first(&mut self, doc: u64) -> bool
        ensures others { of_others doc self.new.pairs ≡ of_others doc self.old.pairs }
        ensures fewer { result ≡ true → length self.old.pairs ≡ length self.new.pairs + 1 }
        ensures same { result ≡ false → self.new.pairs ≡ self.old.pairs }
        ensures none { result ≡ false → of_others doc self.old.pairs ≡ self.old.pairs }
        ensures nodes { self.new.nodes ≡ self.old.nodes }
        ensures room { self.old.room ≤ self.new.room }
    {
        let by_doc = self.docs.get(&doc).copied();
        let Some(at) = first_node(by_doc) else {
            return false;
        };
        let tag = self.nodes[at].tag;
        let held = Sides {
            all: self.all,
            by_tag: self.tags.get(&tag).copied(),
            by_doc,
        };
        let left = release(&mut self.nodes, held, at, self.free);
        self.all = left.all;
        self.free = Some(at);
        set_ends(&mut self.tags, &tag, left.by_tag);
        set_ends(&mut self.docs, &doc, left.by_doc);
        true
    }

    /// Takes all pairs of a document out, a step for each. Takes no memory.
    pub fn unlink_document<L: Ledger>(&mut self, doc: u64, steps: &mut Steps<L>)
        ensures pairs { self.new.pairs ≡ of_others doc self.old.pairs }
        ensures steps { steps.new + length self.new.pairs ≡ steps.old + length self.old.pairs }
        ensures nodes { self.new.nodes ≡ self.old.nodes }
        ensures room { self.old.room ≤ self.new.room }
    {
        while self.unlink_first(doc) {
            steps.tick();
        }
    }

    /// The pairs with a tag.
    pub fn tagged(&self, tag: &[u8; 32]) -> Links<'_>
        ensures { result ≡ with_the_tag tag.now self.now.pairs }
    {
        Links::from(
            &self.nodes,
            Side::Tag,
            first_node(self.tags.get(tag).copied()),
        )
    }

    /// The pairs of a document.
    pub fn linked(&self, doc: u64) -> Links<'_>
        ensures { result ≡ of_document doc self.now.pairs }
    {
        Links::from(
            &self.nodes,
            Side::Doc,
            first_node(self.docs.get(&doc).copied()),
        )
    }

    /// The documents with a tag, in the order of linking.
    pub fn with_tag(&self, tag: &[u8; 32]) -> Result<Numbers, NoMemory>
        ensures { IfOk result (λ list. list ≡ documents_with tag.now self.now.pairs) }
    {
        let mut list = Numbers::new(self.alloc);
        let mut links = self.tagged(tag);
        while let Some((_, doc)) = links.next() {
            list.push(doc)?;
        }
        Ok(list)
    }

    /// The tags of a document, in the order of linking.
    pub fn with_document(&self, doc: u64) -> Result<Tags, NoMemory>
        ensures { IfOk result (λ list. list ≡ tags_of doc self.now.pairs) }
    {
        let mut list = Tags::new(self.alloc);
        let mut links = self.linked(doc);
        while let Some(link) = links.next() {
            let tag = link.0;
            list.push(tag)?;
        }
        Ok(list)
    }

    /// How many nodes there are: the greatest number of pairs that stood at once.
    pub fn nodes(&self) -> usize
        ensures { result ≡ self.now.nodes }
    {
        self.nodes.len()
    }

    /// Other chains with the same pairs.
    pub fn copy(&self) -> Result<Chains, NoMemory>
        ensures pairs { IfOk result (λ other. other.pairs ≡ self.now.pairs) }
        ensures nodes { IfOk result (λ other. other.nodes ≡ self.now.nodes) }
    {
        Ok(Chains {
            alloc: self.alloc,
            nodes: Vec::from_slice(self.alloc, &self.nodes)?,
            all: self.all,
            free: self.free,
            tags: copy_tags(&self.tags)?,
            docs: copy_docs(&self.docs)?,
        })
    }
}

// The first node of a list, if it has one.
fn first_node(ends: Option<Ends>) -> Option<usize>
    ensures { result ≡ first_of ends }
{
    ends.map(|ends| ends.first)
}
