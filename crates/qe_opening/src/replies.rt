//! Replies, with each stored value opened.

ghost use Rattle.qe_base.specs.Answers.{Answers};
ghost use Rattle.qe_opening.specs.Answer as spec;
ghost use Rattle.qe_opening.specs.Faults.{read_refusal};

use crate::fault::{OpenFault, ReadFault};
use crate::keys::{FieldKey, key_at};
use crate::opening::value_in;
use qe_base::Duplicate;
use qe_plain::{Carried, Cells, PlainCell, PlainDocument, PlainDocuments, PlainReply};
use qe_protocol::{Reply, Row};
use qe_store::Cell;
use std::alloc::Global;

// A field's value.
fn read_cell(
    alloc: Global,
    keys: &[Option<FieldKey>],
    field: u32,
    cell: &Cell,
) -> Result<PlainCell, ReadFault>
    ensures { Answers (λ it. it) read_refusal result (spec.cell_of keys.now (field, cell.now)) }
{
    match cell {
        Cell::Plain(value) => Ok(PlainCell {
            field,
            value: Carried::of(value)?,
        }),
        Cell::Indexed(bytes) => match value_in(alloc, key_at(keys, field), bytes.slice()) {
            Ok(value) => Ok(PlainCell {
                field,
                value: Carried::new(value),
            }),
            Err(OpenFault::Kind(kind)) => Err(ReadFault::At { field, kind }),
            Err(OpenFault::NoMemory) => Err(ReadFault::NoMemory),
        },
    }
}

// The values of a document.
fn read_cells(
    alloc: Global,
    keys: &[Option<FieldKey>],
    stored: &[(u32, Cell)],
) -> Result<Cells, ReadFault>
    ensures { Answers (λ it. it) read_refusal result (spec.cells_of keys.now stored.now) }
{
    let mut cells = Cells::new(alloc);
    for (field, cell) in stored {
        let read = read_cell(alloc, keys, *field, cell)?;
        cells.push(read)?;
    }
    Ok(cells)
}

// A document as its user sees it.
fn read_document(
    alloc: Global,
    keys: &[Option<FieldKey>],
    row: &Row,
) -> Result<PlainDocument, ReadFault>
    ensures { Answers (λ it. it) read_refusal result (spec.document_of keys.now row.now) }
{
    let cells = read_cells(alloc, keys, row.cells.slice())?;
    let id = Carried::of(&row.id)?;
    Ok(PlainDocument { id, cells })
}

// The documents of a find.
fn read_documents(
    alloc: Global,
    keys: &[Option<FieldKey>],
    rows: &[Row],
) -> Result<PlainDocuments, ReadFault>
    ensures { Answers (λ it. it) read_refusal result (spec.documents_of keys.now rows.now) }
{
    let mut documents = PlainDocuments::new(alloc);
    for row in rows {
        let read = read_document(alloc, keys, row)?;
        documents.push(read)?;
    }
    Ok(documents)
}

/// The reply as its user sees it, with each stored value opened; or the first cell without a value, in the order of rows
/// and cells, and why it has none.
///
/// A stored value is opened where it is an indexed value of the field's key whose server-encrypted value deciphers to the
/// key's id and behind it the sealed bytes of a value of the stored type. Everything else is as it stands in the reply.
pub fn answer(
    alloc: Global,
    keys: &[Option<FieldKey>],
    reply: &Reply,
) -> Result<PlainReply, ReadFault>
    ensures exact { Answers (λ it. it) read_refusal result (spec.answered keys.now reply.now) }
{
    match reply {
        Reply::Inserted => Ok(PlainReply::Inserted),
        Reply::DuplicateId => Ok(PlainReply::DuplicateId),
        Reply::Updated(count) => Ok(PlainReply::Updated(*count)),
        Reply::Deleted(count) => Ok(PlainReply::Deleted(*count)),
        Reply::Found(rows) => Ok(PlainReply::Found(read_documents(alloc, keys, rows.slice())?)),
        Reply::Ids(ids) => Ok(PlainReply::Ids(ids.copy()?)),
        Reply::Begun(job) => Ok(PlainReply::Begun(*job)),
        Reply::Stepped(left) => Ok(PlainReply::Stepped(*left)),
        Reply::Ended(leaves) => Ok(PlainReply::Ended(*leaves)),
        Reply::Abandoned => Ok(PlainReply::Abandoned),
        Reply::JobRunning(job) => Ok(PlainReply::JobRunning(*job)),
        Reply::NoJob { asked, running } => Ok(PlainReply::NoJob {
            asked: *asked,
            running: *running,
        }),
        Reply::TokenMissing(field) => Ok(PlainReply::TokenMissing(*field)),
        Reply::TokenMismatch(field) => Ok(PlainReply::TokenMismatch(*field)),
        Reply::NotDone(left) => Ok(PlainReply::NotDone(*left)),
        Reply::Raised(to) => Ok(PlainReply::Raised(*to)),
        Reply::NotRaised { asked, current } => Ok(PlainReply::NotRaised {
            asked: *asked,
            current: *current,
        }),
        Reply::ContentionBelow {
            field,
            got,
            current,
        } => Ok(PlainReply::ContentionBelow {
            field: *field,
            got: *got,
            current: *current,
        }),
        Reply::ContentionOver {
            field,
            got,
            current,
        } => Ok(PlainReply::ContentionOver {
            field: *field,
            got: *got,
            current: *current,
        }),
    }
}
