//! Copies of commands and answers.

ghost use Rattle.std.specs.Prelude.{◌≡◌, IfOk};
ghost use Rattle.std.specs.Option.{option_copied};

use crate::command::{Pair, PlainCell, PlainCommand, PlainDocument, PlainReply, RawCommand, Term};
use qe_base::{Duplicate, NoMemory};
use qe_value::Document;

impl Duplicate for Pair {
    fn copy(&self) -> Result<Self, NoMemory> {
        Ok(*self)
    }
}

impl Duplicate for PlainCell {
    fn copy(&self) -> Result<Self, NoMemory> {
        let value = self.value.copy()?;
        Ok(PlainCell {
            field: self.field,
            value,
        })
    }
}

impl Duplicate for PlainDocument {
    fn copy(&self) -> Result<Self, NoMemory> {
        let id = self.id.copy()?;
        let cells = self.cells.copy()?;
        Ok(PlainDocument { id, cells })
    }
}

impl Duplicate for Term {
    fn copy(&self) -> Result<Self, NoMemory> {
        match self {
            Term::Id(value) => Ok(Term::Id(value.copy()?)),
            Term::Equal { field, value } => Ok(Term::Equal {
                field: *field,
                value: value.copy()?,
            }),
            Term::Between { field, lo, hi } => Ok(Term::Between {
                field: *field,
                lo: *lo,
                hi: *hi,
            }),
        }
    }
}

impl Duplicate for RawCommand {
    fn copy(&self) -> Result<Self, NoMemory> {
        match self {
            RawCommand::Insert { doc } => Ok(RawCommand::Insert { doc: doc.copy()? }),
            RawCommand::Find { filter, ids } => Ok(RawCommand::Find {
                filter: filter.copy()?,
                ids: *ids,
            }),
            RawCommand::Update { filter, set } => Ok(RawCommand::Update {
                filter: filter.copy()?,
                set: set.copy()?,
            }),
            RawCommand::Delete { filter } => Ok(RawCommand::Delete {
                filter: filter.copy()?,
            }),
            RawCommand::Begin { kind, tokens } => Ok(RawCommand::Begin {
                kind: *kind,
                tokens: copy_if_some(tokens.as_ref())?,
            }),
            RawCommand::Step { job, limit } => Ok(RawCommand::Step {
                job: *job,
                limit: *limit,
            }),
            RawCommand::End { job } => Ok(RawCommand::End { job: *job }),
            RawCommand::Abandon { job } => Ok(RawCommand::Abandon { job: *job }),
            RawCommand::Raise { field, contention } => Ok(RawCommand::Raise {
                field: field.copy()?,
                contention: *contention,
            }),
        }
    }
}

fn copy_if_some(document: Option<&Document>) -> Result<Option<Document>, NoMemory>
    ensures { IfOk result (λ copied. copied ≡ option_copied document.entry) }
{
    match document {
        Some(document) => Ok(Some(document.copy()?)),
        None => Ok(None),
    }
}

impl Duplicate for PlainCommand {
    fn copy(&self) -> Result<Self, NoMemory> {
        match self {
            PlainCommand::Insert { doc } => Ok(PlainCommand::Insert { doc: doc.copy()? }),
            PlainCommand::Find { filter, ids } => Ok(PlainCommand::Find {
                filter: filter.copy()?,
                ids: *ids,
            }),
            PlainCommand::Update { filter, set } => Ok(PlainCommand::Update {
                filter: filter.copy()?,
                set: set.copy()?,
            }),
            PlainCommand::Delete { filter } => Ok(PlainCommand::Delete {
                filter: filter.copy()?,
            }),
            PlainCommand::Begin { kind, tokens } => Ok(PlainCommand::Begin {
                kind: *kind,
                tokens: tokens.copy()?,
            }),
            PlainCommand::Step { job, limit } => Ok(PlainCommand::Step {
                job: *job,
                limit: *limit,
            }),
            PlainCommand::End { job } => Ok(PlainCommand::End { job: *job }),
            PlainCommand::Abandon { job } => Ok(PlainCommand::Abandon { job: *job }),
            PlainCommand::Raise { field, contention } => Ok(PlainCommand::Raise {
                field: *field,
                contention: *contention,
            }),
        }
    }
}

impl Duplicate for PlainReply {
    fn copy(&self) -> Result<Self, NoMemory> {
        match self {
            PlainReply::Inserted => Ok(PlainReply::Inserted),
            PlainReply::DuplicateId => Ok(PlainReply::DuplicateId),
            PlainReply::Updated(count) => Ok(PlainReply::Updated(*count)),
            PlainReply::Deleted(count) => Ok(PlainReply::Deleted(*count)),
            PlainReply::Found(documents) => Ok(PlainReply::Found(documents.copy()?)),
            PlainReply::Ids(ids) => Ok(PlainReply::Ids(ids.copy()?)),
            PlainReply::Begun(job) => Ok(PlainReply::Begun(*job)),
            PlainReply::Stepped(left) => Ok(PlainReply::Stepped(*left)),
            PlainReply::Ended(leaves) => Ok(PlainReply::Ended(*leaves)),
            PlainReply::Abandoned => Ok(PlainReply::Abandoned),
            PlainReply::JobRunning(job) => Ok(PlainReply::JobRunning(*job)),
            PlainReply::NoJob { asked, running } => Ok(PlainReply::NoJob {
                asked: *asked,
                running: *running,
            }),
            PlainReply::TokenMissing(field) => Ok(PlainReply::TokenMissing(*field)),
            PlainReply::TokenMismatch(field) => Ok(PlainReply::TokenMismatch(*field)),
            PlainReply::NotDone(left) => Ok(PlainReply::NotDone(*left)),
            PlainReply::Raised(to) => Ok(PlainReply::Raised(*to)),
            PlainReply::NotRaised { asked, current } => Ok(PlainReply::NotRaised {
                asked: *asked,
                current: *current,
            }),
            PlainReply::ContentionBelow {
                field,
                got,
                current,
            } => Ok(PlainReply::ContentionBelow {
                field: *field,
                got: *got,
                current: *current,
            }),
            PlainReply::ContentionOver {
                field,
                got,
                current,
            } => Ok(PlainReply::ContentionOver {
                field: *field,
                got: *got,
                current: *current,
            }),
        }
    }
}
