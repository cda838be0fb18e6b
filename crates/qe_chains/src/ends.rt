//! Tables of the first and the last node of each list, by key.

ghost use Rattle.std.specs.Prelude.{◌≡◌, ◌≢◌, ◌+◌, ◌<◌, ◌≤◌, Some, None, IfOk, List, ℕ, bytes_eq, nat_eq};
ghost use Rattle.std.specs.HashMap.{get, spare};
ghost use Rattle.qe_chains.specs.Sound.{Sets};

use crate::nodes::Ends;
use qe_base::NoMemory;
use std::collections::HashMap;
use std::hash::Hash;

/// Gives a key other ends. There is room for it.
pub(crate) fn put_ends<K: Eq + Hash + Drop>(table: &mut HashMap<K, Ends>, key: K, ends: Ends)
    requires { 0 < spare table.old }
    ensures sets { Sets K.eq (get K.eq table.old) (get K.eq table.new) key (Some ends) }
    ensures room { spare table.old ≤ spare table.new + 1 }
{
    if table.insert(key, ends).is_err() {
        unreachable!();
    }
}

/// Gives a key that has ends others, or none.
pub(crate) fn set_ends<K: Eq + Hash + Drop>(
    table: &mut HashMap<K, Ends>,
    key: &K,
    ends: Option<Ends>,
)
    requires { get K.eq table.old key.now ≢ None }
    ensures sets { Sets K.eq (get K.eq table.old) (get K.eq table.new) key.now ends }
    ensures room { spare table.old ≤ spare table.new }
{
    match ends {
        Some(ends) => {
            if let Some(held) = table.get_mut(key) {
                *held = ends;
            }
        }
        None => {
            table.remove(key);
        }
    }
}

/// Another table with the same ends.
pub(crate) fn copy_tags(tags: &HashMap<[u8; 32], Ends>) -> Result<HashMap<[u8; 32], Ends>, NoMemory>
    ensures { IfOk result (λ other. (q : List ℕ) → get bytes_eq other q ≡ get bytes_eq tags.now q) }
{
    Ok(tags.clone()?)
}

/// Another table with the same ends.
pub(crate) fn copy_docs(docs: &HashMap<u64, Ends>) -> Result<HashMap<u64, Ends>, NoMemory>
    ensures { IfOk result (λ other. (q : ℕ) → get nat_eq other q ≡ get nat_eq docs.now q) }
{
    Ok(docs.clone()?)
}
