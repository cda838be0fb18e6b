//! Replies as lines.

use qe_base::{Duplicate, Listing};
use qe_line::{Fault, accepted, print_line};
use qe_schema::{PlainDocument, PlainReply, Schema};
use qe_script::reply_text;

const REPLIES: [PlainReply; 18] = [
    PlainReply::Inserted,
    PlainReply::DuplicateId,
    PlainReply::Updated(1),
    PlainReply::Deleted(0),
    PlainReply::Begun(2),
    PlainReply::Stepped(u64::MAX),
    PlainReply::Ended(0),
    PlainReply::Ended(7),
    PlainReply::Abandoned,
    PlainReply::JobRunning(3),
    PlainReply::NotDone(5),
    PlainReply::NoJob {
        asked: 4,
        running: 0,
    },
    PlainReply::TokenMissing(0),
    PlainReply::TokenMismatch(1),
    PlainReply::Raised(6),
    PlainReply::NotRaised {
        asked: 1,
        current: 2,
    },
    PlainReply::ContentionBelow {
        field: 0,
        got: 1,
        current: 2,
    },
    PlainReply::ContentionOver {
        field: 1,
        got: 9,
        current: 8,
    },
];

fn print_reply(rt: &HostRuntime, schema: &Schema, reply: &PlainReply) -> Result<(), Fault> {
    let text = accepted(reply_text(rt.alloc(), schema, reply))?;
    print_line(rt, text.as_str())
}

/// Prints a document as a find prints it.
pub fn print_found(
    rt: &HostRuntime,
    schema: &Schema,
    document: &PlainDocument,
) -> Result<(), Fault> {
    let mut found = Listing::new(rt.alloc());
    found.push(document.copy()?)?;
    print_reply(rt, schema, &PlainReply::Found(found))
}

/// Prints a reply of each kind without documents, of the fields 0 and 1.
pub fn print_each(rt: &HostRuntime, schema: &Schema) -> Result<(), Fault> {
    for reply in &REPLIES {
        print_reply(rt, schema, reply)?;
    }
    Ok(())
}
