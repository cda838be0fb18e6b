//! The dump of what the engine keeps.

ghost use Rattle.std.specs.Prelude.{◌≡◌, ◌≤◌, ◌++◌, length, IfOk, OnOk, flat_map};
ghost use Rattle.qe_dump.specs.Dump as dump;
ghost use Rattle.qe_serving.specs.Serving.{state_in, docs_in};
ghost use Rattle.qe_serving.specs.Documents.{picked};

use qe_base::{Bytes, NoMemory};
use qe_compact::Upkeep;
use qe_dump::{put_contentions, put_document, put_entries, put_ids, put_job, put_last, put_rows};
use qe_field::Field;
use qe_serving::Collections;
use qe_store::TermSets;
use std::alloc::Global;

/// A line for each row, identifier, job, contention and document, in a fixed order.
pub(crate) fn text_of(kept: &Collections, fields: &[Field]) -> Result<Bytes, NoMemory>
    requires { length fields.now ≤ 64 }
    ensures { IfOk result (λ text. text ≡ dump.dump_of fields.now (state_in kept.now)) }
{
    let rows = kept.esc.rows()?;
    let entries = kept.ecoc.copy()?.rename_aside();
    let mut text = Bytes::new(kept.alloc);
    put_rows(kept.alloc, &mut text, rows.slice())?;
    put_entries(kept.alloc, &mut text, fields, "e", entries.slice())?;
    put_work(kept.alloc, &kept.upkeep, fields, &mut text)?;
    put_contentions(kept.alloc, &mut text, fields, kept.current.as_slice())?;
    put_documents(kept, fields, &mut text)?;
    Ok(text)
}

// Adds the lines of maintenance.
fn put_work(
    alloc: Global,
    upkeep: &Upkeep,
    fields: &[Field],
    text: &mut Bytes,
) -> Result<(), NoMemory>
    ensures { OnOk result (text.new ≡ text.old ++ dump.work_lines fields.now upkeep.now) }
{
    put_entries(alloc, text, fields, "s", upkeep.aside())?;
    put_ids(alloc, text, "c", upkeep.captured())?;
    put_ids(alloc, text, "d", upkeep.doomed())?;
    put_running(alloc, upkeep, text)?;
    put_last(alloc, text, upkeep.last())
}

// Adds the line of the job that runs, if one does.
fn put_running(alloc: Global, upkeep: &Upkeep, text: &mut Bytes) -> Result<(), NoMemory>
    ensures { OnOk result (text.new ≡ text.old ++ dump.job_line upkeep.now.job) }
{
    match upkeep.running() {
        Some((number, kind)) => put_job(alloc, text, number, kind, upkeep.leaves()),
        None => Ok(()),
    }
}

// Adds the lines of all documents.
fn put_documents(kept: &Collections, fields: &[Field], text: &mut Bytes) -> Result<(), NoMemory>
    ensures { OnOk result (text.new ≡ text.old ++ flat_map (dump.document_lines fields.now) (docs_in kept.now.store.documents)) }
{
    let numbers = kept.matching(&TermSets::new(kept.alloc))?;
    put_picked(kept, fields, numbers.slice(), text)
}

// Adds the lines of the documents of some numbers.
fn put_picked(
    kept: &Collections,
    fields: &[Field],
    numbers: &[u64],
    text: &mut Bytes,
) -> Result<(), NoMemory>
    ensures { OnOk result (text.new ≡ text.old ++ flat_map (dump.document_lines fields.now) (picked kept.now.store.documents numbers.now)) }
{
    for number in numbers {
        if let Some(stored) = kept.store.at(*number) {
            put_document(kept.alloc, text, fields, stored)?;
        }
    }
    Ok(())
}
