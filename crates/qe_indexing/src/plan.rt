//! What indexing will add to the index.

ghost use Rattle.std.specs.Prelude.{◌≡◌, ◌≤◌, ◌++◌, [], length, OnOk};
ghost use Rattle.std.specs.FinMap as map;
ghost use Rattle.qe_indexing.specs.Plans.{planned, index_of};

use qe_base::{Counts, NoMemory};
use qe_ecoc::{Ecoc, Entries, Entry};
use qe_esc::{Changes, Esc};
use std::alloc::Global;

/// The index as it stands.
#[derive(Clone, Copy)]
pub struct Standing<'a> {
    /// Where memory comes from.
    pub alloc: Global,
    /// The rows by identifier.
    pub esc: &'a Esc,
    /// The rows that the next compaction or cleanup reads.
    pub ecoc: &'a Ecoc,
}

/// What a command will add to the index, and what its searches found.
#[derive(Drop)]
pub struct Plan {
    /// The rows that are to be added.
    pub changes: Changes,
    /// The rows for compaction that are to follow the others.
    pub entries: Entries,
    /// What each search found, in order.
    pub counts: Counts,
}

impl Plan {
    /// Nothing to be added, behind the counts of earlier searches.
    pub fn new(alloc: Global, counts: Counts) -> Plan
        ensures changes { result.changes ≡ map.empty }
        ensures entries { result.entries ≡ [] }
        ensures counts { result.counts ≡ counts }
    {
        Plan {
            changes: Changes::new(alloc),
            entries: Entries::new(alloc),
            counts,
        }
    }
}

/// Makes room for what is planned.
pub fn make_room(plan: &Plan, esc: &mut Esc, ecoc: &mut Ecoc) -> Result<(), NoMemory>
    ensures index { index_of esc.new ecoc.new ≡ index_of esc.old ecoc.old }
    ensures rows { OnOk result (map.len plan.now.changes ≤ esc.new.spare) }
    ensures entries { OnOk result (length plan.now.entries ≤ ecoc.new.spare) }
{
    esc.reserve(plan.changes.len())?;
    ecoc.reserve(plan.entries.len())
}

/// Adds what is planned, for which there is room. It takes no memory.
pub fn carry_out(plan: &Plan, esc: &mut Esc, ecoc: &mut Ecoc)
    requires rows { map.len plan.now.changes ≤ esc.old.spare }
    requires entries { length plan.now.entries ≤ ecoc.old.spare }
    ensures { index_of esc.new ecoc.new ≡ planned (index_of esc.old ecoc.old) plan.now }
{
    plan.changes.apply(esc);
    add_all(ecoc, plan.entries.slice());
}

// Adds rows for compaction, for which there is room.
fn add_all(ecoc: &mut Ecoc, entries: &[Entry])
    requires { length entries.now ≤ ecoc.old.spare }
    ensures { ecoc.new.rows ≡ ecoc.old.rows ++ entries.now }
{
    for entry in entries {
        ecoc.add(*entry);
    }
}
