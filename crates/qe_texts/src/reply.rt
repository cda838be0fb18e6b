//! Replies as lines.

ghost use Rattle.std.specs.Prelude.{◌≡◌, Ok, map, string_bytes};
ghost use Rattle.qe_base.specs.Answers.{Answers};
ghost use Rattle.qe_value.specs.Views.{plain};
ghost use Rattle.qe_schema.specs.Judgements.{ahead, Leaves};
ghost use Rattle.qe_texts.specs.Faults.{print_refusal};
ghost use Rattle.qe_texts.specs.Replies as replies;
ghost use Rattle.qe_texts.specs.Phrases as phrases;

use crate::document::{document_text, value_text};
use crate::fault::PrintFault;
use crate::phrases::{alone, counted, named, twice_counted};
use qe_base::Text;
use qe_bson::Value;
use qe_field::path_of;
use qe_schema::{Field, PlainDocument, PlainReply, Schema};
use std::alloc::Global;

// Adds a document's JSON after a space.
#[tactic(auto, unfolding(crate::specs::Replies::spaced_document))]
fn add_document(
    alloc: Global,
    fields: &[Field],
    document: &PlainDocument,
    text: &mut String,
) -> Result<(), PrintFault>
    ensures { Leaves print_refusal result (string_bytes text.new) (ahead (string_bytes text.old) (replies.spaced_document fields.now document.now)) }
{
    let printed = document_text(alloc, fields, document)?;
    text.push_str(" ")?;
    text.push_str(printed.as_str())?;
    Ok(())
}

// Adds a value's JSON after a space.
fn add_value(alloc: Global, value: &Value, text: &mut String) -> Result<(), PrintFault>
    ensures { Leaves print_refusal result (string_bytes text.new) (ahead (string_bytes text.old) (replies.spaced_value (plain value.now))) }
{
    let printed = value_text(alloc, value)?;
    text.push_str(" ")?;
    text.push_str(printed.as_str())?;
    Ok(())
}

fn found_line(
    alloc: Global,
    fields: &[Field],
    documents: &[PlainDocument],
) -> Result<String, PrintFault>
    ensures { Answers string_bytes print_refusal result (replies.found_line fields.now documents.now) }
{
    let mut text = counted(alloc, "found", documents.len() as u64)?;
    for document in documents {
        add_document(alloc, fields, document, &mut text)?;
    }
    Ok(text)
}

fn ids_line(alloc: Global, ids: &[Value]) -> Result<String, PrintFault>
    ensures { Answers string_bytes print_refusal result (replies.ids_line (map plain ids.now)) }
{
    let mut text = alone(alloc, "ids")?;
    for id in ids {
        add_value(alloc, id, &mut text)?;
    }
    Ok(text)
}

fn ended_line(alloc: Global, leaves: u64) -> Result<String, PrintFault>
    ensures { Answers string_bytes print_refusal result (Ok (replies.ended_line leaves)) }
{
    if leaves == 0 {
        alone(alloc, "ended")
    } else {
        counted(alloc, "ended leaves", leaves)
    }
}

// A field's contention that was sent, and the one that it has.
fn contention_line(
    alloc: Global,
    word: &str,
    path: &str,
    got: u64,
    current: u64,
) -> Result<String, PrintFault>
    ensures { Answers string_bytes print_refusal result (Ok (phrases.twice_counted (phrases.named word.now path.now) got current)) }
{
    let named = named(alloc, word, path)?;
    twice_counted(alloc, named.as_str(), got, current)
}

#[tactic(auto, unfolding(crate::specs::Replies::reply_line))]
fn reply_line(alloc: Global, fields: &[Field], reply: &PlainReply) -> Result<String, PrintFault>
    ensures { Answers string_bytes print_refusal result (replies.reply_line fields.now reply.now) }
{
    match reply {
        PlainReply::Inserted => alone(alloc, "inserted"),
        PlainReply::DuplicateId => alone(alloc, "duplicate"),
        PlainReply::Updated(n) => counted(alloc, "updated", *n),
        PlainReply::Deleted(n) => counted(alloc, "deleted", *n),
        PlainReply::Found(documents) => found_line(alloc, fields, documents.slice()),
        PlainReply::Ids(ids) => ids_line(alloc, ids.slice()),
        PlainReply::Begun(job) => counted(alloc, "begun", *job),
        PlainReply::Stepped(left) => counted(alloc, "stepped", *left),
        PlainReply::Ended(leaves) => ended_line(alloc, *leaves),
        PlainReply::Abandoned => alone(alloc, "abandoned"),
        PlainReply::JobRunning(job) => counted(alloc, "job running", *job),
        PlainReply::NoJob { asked, running } => twice_counted(alloc, "no job", *asked, *running),
        PlainReply::TokenMissing(field) => named(alloc, "token missing", path_of(fields, *field)),
        PlainReply::TokenMismatch(field) => named(alloc, "token mismatch", path_of(fields, *field)),
        PlainReply::NotDone(left) => counted(alloc, "not done", *left),
        PlainReply::Raised(contention) => counted(alloc, "raised", *contention),
        PlainReply::NotRaised { asked, current } => {
            twice_counted(alloc, "not raised", *asked, *current)
        }
        PlainReply::ContentionBelow {
            field,
            got,
            current,
        } => contention_line(
            alloc,
            "contention below",
            path_of(fields, *field),
            *got,
            *current,
        ),
        PlainReply::ContentionOver {
            field,
            got,
            current,
        } => contention_line(
            alloc,
            "contention over",
            path_of(fields, *field),
            *got,
            *current,
        ),
    }
}

/// The line of a reply, without its end. It is `Unprintable` exactly where a double, a decimal or a timestamp stands in
/// a document or is an id. A number that is no field's has an empty path.
pub fn reply_text(alloc: Global, schema: &Schema, reply: &PlainReply) -> Result<Text, PrintFault>
    ensures exact { Answers (λ it. it) print_refusal result (replies.reply_line schema.now reply.now) }
{
    let line = reply_line(alloc, schema.fields(), reply)?;
    Ok(Text::of(alloc, line.as_str())?)
}
