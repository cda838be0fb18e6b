//! Commands.

use crate::{SentCells, SentFilter};
use qe_base::{Duplicate, JobKind, NoMemory};
use qe_document::Value;
use qe_tokens::TokenList;

/// What a client asks of the server.
#[derive(Drop)]
pub enum Command {
    /// A new document.
    Insert { id: Value, cells: SentCells },
    /// The documents that match, or their ids alone.
    Find { filter: SentFilter, ids: bool },
    /// New cells for the first document that matches.
    Update { filter: SentFilter, set: SentCells },
    /// The first document that matches, taken out.
    Delete { filter: SentFilter },
    /// A job of maintenance, with the tokens of fields that it may open.
    Begin { kind: JobKind, tokens: TokenList },
    /// At most `limit` units of the running job.
    Step { job: u64, limit: u32 },
    /// The end of the running job, when nothing is left.
    End { job: u64 },
    /// The end of the running job, whatever is left.
    Abandon { job: u64 },
    /// A greater contention for an encrypted field.
    Raise { field: u32, contention: u64 },
}

impl Duplicate for Command {
    fn copy(&self) -> Result<Self, NoMemory> {
        match self {
            Command::Insert { id, cells } => Ok(Command::Insert {
                id: id.copy()?,
                cells: cells.copy()?,
            }),
            Command::Find { filter, ids } => Ok(Command::Find {
                filter: filter.copy()?,
                ids: *ids,
            }),
            Command::Update { filter, set } => Ok(Command::Update {
                filter: filter.copy()?,
                set: set.copy()?,
            }),
            Command::Delete { filter } => Ok(Command::Delete {
                filter: filter.copy()?,
            }),
            Command::Begin { kind, tokens } => Ok(Command::Begin {
                kind: *kind,
                tokens: tokens.copy()?,
            }),
            Command::Step { job, limit } => Ok(Command::Step {
                job: *job,
                limit: *limit,
            }),
            Command::End { job } => Ok(Command::End { job: *job }),
            Command::Abandon { job } => Ok(Command::Abandon { job: *job }),
            Command::Raise { field, contention } => Ok(Command::Raise {
                field: *field,
                contention: *contention,
            }),
        }
    }
}
