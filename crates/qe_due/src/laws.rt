//! Laws about what is due.

ghost use Rattle.qe_due.specs.Laws.{DueHasOneStatus};

/// Where a source had a whole input left, what is due of it comes with the one status of the words and this input: no other
/// status is theirs.
pub fn what_is_due_has_one_status()
    ensures { DueHasOneStatus }
{}
