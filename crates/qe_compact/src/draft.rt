//! What a step is about to do.

ghost use Rattle.std.specs.Prelude.{◌≡◌, ◌+◌, ◌^◌, ◌<◌, ◌++◌, [], drop, IfSome};
ghost use Rattle.std.specs.FinMap.{empty};
ghost use Rattle.qe_compact.specs.Drafts.{drafted, IsCountable, IsFirst, IsSubject};

use crate::job::Running;
use crate::upkeep::Upkeep;
use qe_base::{Counts, Ids, Numbers};
use qe_ecoc::Entry;
use qe_esc::{Changes, Esc};
use std::alloc::Global;

/// What units look at: the rows and lists as they are, and the job.
#[derive(Clone, Copy)]
pub(crate) struct Standing<'a> {
    pub(crate) esc: &'a Esc,
    pub(crate) upkeep: &'a Upkeep,
    pub(crate) job: &'a Running,
}

/// What becomes of rows, and the anchors that are doomed behind those that are.
#[derive(Drop)]
pub(crate) struct Plan {
    pub(crate) changes: Changes,
    pub(crate) doomed: Ids,
}

/// How much was taken from the front of each list, and how many rows of leaves the job has handled.
#[derive(Clone, Copy)]
pub(crate) struct Taken {
    pub(crate) rows: usize,
    pub(crate) doomed: usize,
    pub(crate) captured: usize,
    pub(crate) leaves: u64,
}

/// What units have planned, taken and noted.
#[derive(Drop)]
pub(crate) struct Draft {
    pub(crate) plan: Plan,
    pub(crate) taken: Taken,
    pub(crate) counts: Counts,
    pub(crate) opened: Numbers,
}

impl Draft {
    /// Nothing is planned or taken yet.
    pub(crate) fn new(alloc: Global, leaves: u64, counts: Counts, opened: Numbers) -> Draft
        ensures { result ≡ record { plan = record { changes = empty; doomed = [] }; taken = record { rows = 0; doomed = 0; captured = 0; leaves = leaves }; counts = counts; opened = opened } }
    {
        Draft {
            plan: Plan {
                changes: Changes::new(alloc),
                doomed: Ids::new(alloc),
            },
            taken: Taken {
                rows: 0,
                doomed: 0,
                captured: 0,
                leaves,
            },
            counts,
            opened,
        }
    }
}

/// What a step is about to do, and the field of a row whose token has no rows.
#[derive(Drop)]
pub(crate) struct Planned {
    pub(crate) draft: Draft,
    pub(crate) mismatch: Option<u32>,
}

/// What a unit is about.
#[derive(Clone, Copy)]
pub(crate) enum Subject {
    /// A row aside.
    Row(Entry),
    /// A doomed identifier.
    Doomed([u8; 32]),
    /// A captured identifier.
    Captured([u8; 32]),
    /// Nothing is left.
    Nothing,
}

/// What the next unit is about.
pub(crate) fn next_subject(standing: &Standing, draft: &Draft) -> Subject
    ensures subject { IsSubject standing.now.upkeep.now draft.now (drafted standing.now.esc.now.rows standing.now.upkeep.now draft.now) result }
    ensures small { IsCountable draft.now.taken result }
{
    let upkeep = standing.upkeep;
    if let Some(row) = item_at(upkeep.aside(), draft.taken.rows) {
        return Subject::Row(row);
    }
    if let Some(id) = doomed_at(
        upkeep.doomed(),
        draft.plan.doomed.slice(),
        draft.taken.doomed,
    ) {
        return Subject::Doomed(id);
    }
    match item_at(upkeep.captured(), draft.taken.captured) {
        Some(id) => Subject::Captured(id),
        None => Subject::Nothing,
    }
}

// The item at a place.
fn item_at<T: Copy>(items: &[T], place: usize) -> Option<T>
    ensures first { IsFirst (drop place items.now) (drop (place + 1) items.now) result }
    ensures small { IfSome result (λ _. place + 1 < 2 ^ 64) }
{
    items.get(place).copied()
}

// The identifier at a place of two lists, one behind the other.
fn doomed_at(standing: &[[u8; 32]], added: &[[u8; 32]], place: usize) -> Option<[u8; 32]>
    ensures first { IsFirst (drop place (standing.now ++ added.now)) (drop (place + 1) (standing.now ++ added.now)) result }
    ensures small { IfSome result (λ _. place + 1 < 2 ^ 64) }
{
    if place < standing.len() {
        return item_at(standing, place);
    }
    item_at(added, place - standing.len())
}
