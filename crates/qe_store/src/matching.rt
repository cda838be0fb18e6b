//! What a search for documents needs of its conditions and of numbers.

ghost use Rattle.std.specs.Prelude.{◌≡◌, ◌<◌, ◌↔◌, [], length, IfOk, IfSome, IfNone, ℕ, bytes_eq};
ghost use Rattle.std.specs.List.{list_any, Contains};
ghost use Rattle.std.specs.List.Sorted.{IsStrictlyIncreasing};
ghost use Rattle.std.specs.HashSet.{contains};
ghost use Rattle.qe_store.specs.Parts.{IsSetOf};

use crate::stored::TermSet;
use qe_base::NoMemory;
use std::alloc::Global;
use std::collections::HashSet;

// How many documents a condition may be met by, about: a tag is one document's in honest use.
fn size(term: &TermSet) -> usize {
    match term {
        TermSet::Id(_) => 1,
        TermSet::Tags(tags) => tags.len(),
    }
}

/// The place of the smallest condition, if there is one.
pub(crate) fn smallest(terms: &[TermSet]) -> Option<usize>
    ensures none { IfNone result (terms.now ≡ []) }
    ensures within { IfSome result (λ at. at < length terms.now) }
{
    if terms.is_empty() {
        return None;
    }
    let mut at = 0;
    for next in 1..terms.len() {
        if size(&terms[next]) < size(&terms[at]) {
            at = next;
        }
    }
    Some(at)
}

/// The set of some tags.
pub(crate) fn set_of(alloc: Global, tags: &[[u8; 32]]) -> Result<HashSet<[u8; 32]>, NoMemory>
    ensures { IfOk result (λ set. IsSetOf tags.now set) }
{
    let mut set = HashSet::new(alloc);
    for tag in tags {
        set.insert(*tag)?;
    }
    Ok(set)
}

/// Whether one of some tags is in a set.
pub(crate) fn has_one(tags: &[[u8; 32]], wanted: &HashSet<[u8; 32]>) -> bool
    ensures { result ≡ list_any (contains bytes_eq wanted.now) tags.now }
{
    tags.iter().any(|tag| wanted.contains(tag))
}

/// Numbers in rising order, each once. Takes no memory.
pub(crate) fn rising(mut numbers: Vec<u64>) -> Vec<u64>
    ensures rising { IsStrictlyIncreasing result.items }
    ensures same { (n : ℕ) → Contains result.items n ↔ Contains numbers.items n }
{
    numbers.sort_unstable();
    numbers.dedup();
    numbers
}
