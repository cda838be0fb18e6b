//! Commands and their answers, without any encryption.

use qe_base::{JobKind, Listing, Text};
use qe_value::{Carried, Document, Values};

/// A command as it was written, before it is judged under a schema.
#[derive(Drop)]
pub enum RawCommand {
    Insert {
        doc: Document,
    },
    Find {
        filter: Document,
        ids: bool,
    },
    Update {
        filter: Document,
        set: Document,
    },
    Delete {
        filter: Document,
    },
    Begin {
        kind: JobKind,
        tokens: Option<Document>,
    },
    Step {
        job: u64,
        limit: u64,
    },
    End {
        job: u64,
    },
    Abandon {
        job: u64,
    },
    Raise {
        field: Text,
        contention: u64,
    },
}

/// A value in the field of a document.
#[derive(Drop)]
pub struct PlainCell {
    pub field: u32,
    pub value: Carried,
}

/// Values of fields, in rising field number.
pub type Cells = Listing<PlainCell>;

/// A document as its user sees it.
#[derive(Drop)]
pub struct PlainDocument {
    pub id: Carried,
    pub cells: Cells,
}

/// Documents.
pub type PlainDocuments = Listing<PlainDocument>;

/// What one name of a filter asks for.
#[derive(Drop)]
pub enum Term {
    /// The document with this id.
    Id(Carried),
    /// The documents with this value in the field.
    Equal { field: u32, value: Carried },
    /// The documents whose number in the field is neither below `lo` nor above `hi`.
    Between { field: u32, lo: i64, hi: i64 },
}

/// Terms that must all hold.
pub type Filter = Listing<Term>;

/// A field, and the field whose token is sent for it.
#[derive(Clone, Copy, Debug, PartialEq, Eq)]
pub struct Pair {
    pub field: u32,
    pub sent: u32,
}

/// Pairs, in rising field number.
pub type Pairs = Listing<Pair>;

/// A command under a schema.
#[derive(Drop)]
pub enum PlainCommand {
    Insert { doc: PlainDocument },
    Find { filter: Filter, ids: bool },
    Update { filter: Filter, set: Cells },
    Delete { filter: Filter },
    Begin { kind: JobKind, tokens: Pairs },
    Step { job: u64, limit: u32 },
    End { job: u64 },
    Abandon { job: u64 },
    Raise { field: u32, contention: u64 },
}

/// The answer to a command.
#[derive(Drop)]
pub enum PlainReply {
    Inserted,
    DuplicateId,
    Updated(u64),
    Deleted(u64),
    Found(PlainDocuments),
    Ids(Values),
    Begun(u64),
    Stepped(u64),
    /// The job ended, and handled so many rows of leaves.
    Ended(u64),
    Abandoned,
    JobRunning(u64),
    NoJob { asked: u64, running: u64 },
    TokenMissing(u32),
    TokenMismatch(u32),
    NotDone(u64),
    Raised(u64),
    NotRaised { asked: u64, current: u64 },
    ContentionBelow { field: u32, got: u64, current: u64 },
    ContentionOver { field: u32, got: u64, current: u64 },
}
