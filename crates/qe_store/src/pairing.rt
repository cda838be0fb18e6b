//! A document's pairs in chains: all linked, all unlinked, and others in their place.

ghost use Rattle.std.specs.Prelude.{◌≡◌, ◌+◌, ◌<◌, ◌≤◌, ◌++◌, length, map};
ghost use Rattle.qe_chains.specs.Pairs.{of_others};
ghost use Rattle.qe_store.specs.Parts.{paired};

use qe_base::Steps;
use qe_chains::Chains;
use std::marker::Brand;
use std::sync::ledger::{Blank, Ledger};

/// Links a document with each of its tags. Takes no memory.
pub(crate) fn link_all(chains: &mut Chains, tags: &[[u8; 32]], number: u64)
    requires { length tags.now ≤ chains.old.room }
    ensures pairs { chains.new.pairs ≡ chains.old.pairs ++ map (paired number) tags.now }
    ensures room { chains.old.room ≤ chains.new.room + length tags.now }
{
    for tag in tags {
        chains.link(*tag, number);
    }
}

/// Unlinks a document from all its tags. Takes no memory.
pub(crate) fn unlink_all(chains: &mut Chains, number: u64)
    ensures pairs { chains.new.pairs ≡ of_others number chains.old.pairs }
    ensures room { chains.old.room ≤ chains.new.room }
{
    unlink_on::<Brand>(chains, number, Blank::new(1));
}

/// Links a document with these tags in the place of its own. Takes no memory.
pub(crate) fn relink_all(chains: &mut Chains, tags: &[[u8; 32]], number: u64)
    requires { length tags.now ≤ chains.old.room }
    ensures pairs { chains.new.pairs ≡ of_others number chains.old.pairs ++ map (paired number) tags.now }
    ensures room { chains.old.room ≤ chains.new.room + length tags.now }
{
    unlink_all(chains, number);
    link_all(chains, tags, number);
}

// Unlinks on a ledger whose steps nobody reads.
fn unlink_on<L: Ledger>(chains: &mut Chains, number: u64, blank: Blank)
    requires name { blank.name ≡ L.name }
    requires parts { blank.parts ≡ L.parts }
    requires some { 0 < L.parts }
    ensures pairs { chains.new.pairs ≡ of_others number chains.old.pairs }
    ensures room { chains.old.room ≤ chains.new.room }
{
    chains.unlink_document(number, &mut Steps::<L>::new(blank));
}
