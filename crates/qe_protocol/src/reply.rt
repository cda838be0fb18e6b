//! What the server answers.

use crate::Rows;
use qe_base::{Duplicate, NoMemory};
use qe_document::Values;

/// The answer to a command.
#[derive(Drop)]
pub enum Reply {
    Inserted,
    /// A document has the id.
    DuplicateId,
    /// How many documents were updated, 0 or 1.
    Updated(u64),
    /// How many documents were deleted, 0 or 1.
    Deleted(u64),
    /// The documents that match.
    Found(Rows),
    /// The ids of the documents that match.
    Ids(Values),
    /// The number of the job that runs now.
    Begun(u64),
    /// How much is left: rows aside, and ids to take out.
    Stepped(u64),
    /// The job ended, and handled so many rows of leaves.
    Ended(u64),
    Abandoned,
    /// The number of the job that runs already.
    JobRunning(u64),
    /// Another job runs, or none, which is 0.
    NoJob { asked: u64, running: u64 },
    /// A row aside is of this field, for which no token was sent.
    TokenMissing(u32),
    /// A row of this field opens to a token without rows.
    TokenMismatch(u32),
    /// How much is left before the job can end.
    NotDone(u64),
    /// The field's contention now.
    Raised(u64),
    /// The contention asked for isn't above the current one.
    NotRaised { asked: u64, current: u64 },
    /// A term asks for too few factors.
    ContentionBelow { field: u32, got: u64, current: u64 },
    /// A value has too great a factor.
    ContentionOver { field: u32, got: u64, current: u64 },
}

/// A reply with numbers in the place of documents and ids.
#[derive(Clone, Copy, Debug, PartialEq, Eq)]
pub enum Outcome {
    Inserted,
    DuplicateId,
    Updated(u64),
    Deleted(u64),
    /// How many documents match.
    Found(u64),
    /// How many documents match.
    Ids(u64),
    Begun(u64),
    Stepped(u64),
    Ended(u64),
    Abandoned,
    JobRunning(u64),
    NoJob { asked: u64, running: u64 },
    TokenMissing(u32),
    TokenMismatch(u32),
    NotDone(u64),
    Raised(u64),
    NotRaised { asked: u64, current: u64 },
    ContentionBelow { field: u32, got: u64, current: u64 },
    ContentionOver { field: u32, got: u64, current: u64 },
}

impl Duplicate for Outcome {
    fn copy(&self) -> Result<Self, NoMemory> {
        Ok(*self)
    }
}

impl Duplicate for Reply {
    fn copy(&self) -> Result<Self, NoMemory> {
        match self {
            Reply::Inserted => Ok(Reply::Inserted),
            Reply::DuplicateId => Ok(Reply::DuplicateId),
            Reply::Updated(count) => Ok(Reply::Updated(*count)),
            Reply::Deleted(count) => Ok(Reply::Deleted(*count)),
            Reply::Found(rows) => Ok(Reply::Found(rows.copy()?)),
            Reply::Ids(ids) => Ok(Reply::Ids(ids.copy()?)),
            Reply::Begun(job) => Ok(Reply::Begun(*job)),
            Reply::Stepped(left) => Ok(Reply::Stepped(*left)),
            Reply::Ended(leaves) => Ok(Reply::Ended(*leaves)),
            Reply::Abandoned => Ok(Reply::Abandoned),
            Reply::JobRunning(job) => Ok(Reply::JobRunning(*job)),
            Reply::NoJob { asked, running } => Ok(Reply::NoJob {
                asked: *asked,
                running: *running,
            }),
            Reply::TokenMissing(field) => Ok(Reply::TokenMissing(*field)),
            Reply::TokenMismatch(field) => Ok(Reply::TokenMismatch(*field)),
            Reply::NotDone(left) => Ok(Reply::NotDone(*left)),
            Reply::Raised(to) => Ok(Reply::Raised(*to)),
            Reply::NotRaised { asked, current } => Ok(Reply::NotRaised {
                asked: *asked,
                current: *current,
            }),
            Reply::ContentionBelow {
                field,
                got,
                current,
            } => Ok(Reply::ContentionBelow {
                field: *field,
                got: *got,
                current: *current,
            }),
            Reply::ContentionOver {
                field,
                got,
                current,
            } => Ok(Reply::ContentionOver {
                field: *field,
                got: *got,
                current: *current,
            }),
        }
    }
}
