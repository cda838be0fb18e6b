//! What the journal keeps of a reply.

ghost use Rattle.std.specs.Prelude.{◌≡◌};
ghost use Rattle.qe_protocol.specs.Next.{outcome_of};

use qe_protocol::{Outcome, Reply};

/// A reply with the number of documents or ids in their place. It takes no memory.
pub fn outcome_of(reply: &Reply) -> Outcome
    ensures { result ≡ outcome_of reply.now }
{
    match reply {
        Reply::Inserted => Outcome::Inserted,
        Reply::DuplicateId => Outcome::DuplicateId,
        Reply::Updated(count) => Outcome::Updated(*count),
        Reply::Deleted(count) => Outcome::Deleted(*count),
        Reply::Found(rows) => Outcome::Found(rows.len() as u64),
        Reply::Ids(ids) => Outcome::Ids(ids.len() as u64),
        Reply::Begun(job) => Outcome::Begun(*job),
        Reply::Stepped(left) => Outcome::Stepped(*left),
        Reply::Ended(leaves) => Outcome::Ended(*leaves),
        Reply::Abandoned => Outcome::Abandoned,
        Reply::JobRunning(job) => Outcome::JobRunning(*job),
        Reply::NoJob { asked, running } => Outcome::NoJob {
            asked: *asked,
            running: *running,
        },
        Reply::TokenMissing(field) => Outcome::TokenMissing(*field),
        Reply::TokenMismatch(field) => Outcome::TokenMismatch(*field),
        Reply::NotDone(left) => Outcome::NotDone(*left),
        Reply::Raised(to) => Outcome::Raised(*to),
        Reply::NotRaised { asked, current } => Outcome::NotRaised {
            asked: *asked,
            current: *current,
        },
        Reply::ContentionBelow {
            field,
            got,
            current,
        } => Outcome::ContentionBelow {
            field: *field,
            got: *got,
            current: *current,
        },
        Reply::ContentionOver {
            field,
            got,
            current,
        } => Outcome::ContentionOver {
            field: *field,
            got: *got,
            current: *current,
        },
    }
}
