//! What a client learns of the last entry of a journal.

ghost use Rattle.std.specs.Prelude.{◌≡◌, List, [], ◌∷◌, ◌++◌};
ghost use Rattle.qe_protocol.specs.declared.journal.JournalEntry.{JournalEntry as Entry};
ghost use Rattle.qe_line_run.specs.Playing.{TeachesAs};

use qe_protocol::{JournalEntry, Outcome, Reply};

/// The outcome of the last entry; of no entry, that nothing was abandoned.
pub fn last_outcome(journal: &[JournalEntry]) -> Outcome
    ensures { (front : List Entry) (entry : Entry) → journal.now ≡ front ++ entry ∷ [] → result ≡ entry.outcome }
{
    match journal.last() {
        Some(entry) => entry.outcome,
        None => Outcome::Abandoned,
    }
}

/// A reply that teaches a caller what the reply of this outcome did.
pub(crate) fn lesson(outcome: Outcome) -> Reply
    ensures { TeachesAs outcome result }
{
    match outcome {
        Outcome::Raised(to) => Reply::Raised(to),
        Outcome::NotRaised { asked, current } => Reply::NotRaised { asked, current },
        Outcome::ContentionBelow {
            field,
            got,
            current,
        } => Reply::ContentionBelow {
            field,
            got,
            current,
        },
        Outcome::Inserted
        | Outcome::DuplicateId
        | Outcome::Updated(_)
        | Outcome::Deleted(_)
        | Outcome::Found(_)
        | Outcome::Ids(_)
        | Outcome::Begun(_)
        | Outcome::Stepped(_)
        | Outcome::Ended(_)
        | Outcome::Abandoned
        | Outcome::JobRunning(_)
        | Outcome::NoJob { .. }
        | Outcome::TokenMissing(_)
        | Outcome::TokenMismatch(_)
        | Outcome::NotDone(_)
        | Outcome::ContentionOver { .. } => Reply::Abandoned,
    }
}
