//! Commands under a schema.

ghost use Rattle.std.specs.Prelude.{◌≡◌, ◌≤◌, length};
ghost use Rattle.qe_base.specs.Answers.{Answers};
ghost use Rattle.qe_filter.specs.Faults.{plain_refusal};
ghost use Rattle.qe_resolve.specs.Resolve as resolve;

use crate::cells::cells_of;
use crate::pairs::pairs_of;
use qe_field::{Field, greatest_of};
use qe_filter::{PlainFault, filter_terms, indexed};
use qe_plain::{Carried, PlainCommand, PlainDocument, RawCommand};
use qe_value::Document;
use std::alloc::Global;

/// The most units that one step may do.
const MOST_UNITS: u64 = 65_536;

// A document to insert; that it has an id is judged last.
fn document_of(
    alloc: Global,
    fields: &[Field],
    document: &Document,
) -> Result<PlainDocument, PlainFault>
    requires { length fields.now ≤ 64 }
    ensures { Answers (λ it. it) plain_refusal result (resolve.document_of fields.now document.now) }
{
    let cells = cells_of(alloc, false, fields, document)?;
    let Some(id) = document.get("_id") else {
        return Err(PlainFault::NoId);
    };
    let id = Carried::of(id)?;
    Ok(PlainDocument { id, cells })
}

fn update_of(
    alloc: Global,
    fields: &[Field],
    filter: &Document,
    set: &Document,
) -> Result<PlainCommand, PlainFault>
    requires { length fields.now ≤ 64 }
    ensures { Answers (λ it. it) plain_refusal result (resolve.update_of fields.now filter.now set.now) }
{
    let filter = filter_terms(alloc, fields, filter)?;
    let set = cells_of(alloc, true, fields, set)?;
    Ok(PlainCommand::Update { filter, set })
}

fn step_of(job: u64, limit: u64) -> Result<PlainCommand, PlainFault>
    ensures { result ≡ resolve.step_of job limit }
{
    if 1 <= limit && limit <= MOST_UNITS {
        Ok(PlainCommand::Step {
            job,
            limit: limit as u32,
        })
    } else {
        Err(PlainFault::BadLimit(limit))
    }
}

fn raise_of(
    alloc: Global,
    fields: &[Field],
    path: &str,
    contention: u64,
) -> Result<PlainCommand, PlainFault>
    requires { length fields.now ≤ 64 }
    ensures { Answers (λ it. it) plain_refusal result (resolve.raise_of fields.now path.now contention) }
{
    let (field, kind) = indexed(alloc, fields, path)?;
    if contention > greatest_of(&kind) {
        return Err(PlainFault::BadContention(contention));
    }
    Ok(PlainCommand::Raise { field, contention })
}

/// The command under these fields, or its first fault.
#[tactic(auto, unfolding(crate::specs::Resolve::resolved))]
pub fn resolved(
    alloc: Global,
    fields: &[Field],
    raw: &RawCommand,
) -> Result<PlainCommand, PlainFault>
    requires { length fields.now ≤ 64 }
    ensures { Answers (λ it. it) plain_refusal result (resolve.resolved fields.now raw.now) }
{
    match raw {
        RawCommand::Insert { doc } => {
            let doc = document_of(alloc, fields, doc)?;
            Ok(PlainCommand::Insert { doc })
        }
        RawCommand::Find { filter, ids } => {
            let filter = filter_terms(alloc, fields, filter)?;
            Ok(PlainCommand::Find { filter, ids: *ids })
        }
        RawCommand::Update { filter, set } => update_of(alloc, fields, filter, set),
        RawCommand::Delete { filter } => {
            let filter = filter_terms(alloc, fields, filter)?;
            Ok(PlainCommand::Delete { filter })
        }
        RawCommand::Begin { kind, tokens } => {
            let tokens = pairs_of(alloc, fields, tokens.as_ref())?;
            Ok(PlainCommand::Begin {
                kind: *kind,
                tokens,
            })
        }
        RawCommand::Step { job, limit } => step_of(*job, *limit),
        RawCommand::End { job } => Ok(PlainCommand::End { job: *job }),
        RawCommand::Abandon { job } => Ok(PlainCommand::Abandon { job: *job }),
        RawCommand::Raise { field, contention } => {
            raise_of(alloc, fields, field.as_str(), *contention)
        }
    }
}
