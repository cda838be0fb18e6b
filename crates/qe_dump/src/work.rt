//! The job, the last job's number, and contentions.

ghost use Rattle.std.specs.Prelude.{◌≡◌, ◌≤◌, ◌++◌, length, OnOk};
ghost use Rattle.qe_protocol.specs.Contention.{current_of};
ghost use Rattle.qe_protocol.specs.Journal.{first_contention};
ghost use Rattle.qe_dump.specs.Dump as dump;

use crate::lines::{put_line, spaced};
use qe_base::{Bytes, JobKind, NoMemory};
use qe_field::{Field, FieldKind};
use std::alloc::Global;

// The word of a kind of job.
fn kind_word(kind: JobKind) -> &'static str
    ensures { result.now ≡ dump.kind_word kind }
{
    match kind {
        JobKind::Compact => "compact",
        JobKind::Cleanup => "cleanup",
    }
}

/// Adds the job that runs, if one does: `j NUMBER KIND LEAVES`.
pub fn put_job(
    alloc: Global,
    out: &mut Bytes,
    number: u64,
    kind: JobKind,
    leaves: u64,
) -> Result<(), NoMemory>
    ensures { OnOk result (out.new ≡ out.old ++ dump.job_text number kind leaves) }
{
    let number = format!(in alloc; "{number}")?;
    let leaves = format!(in alloc; "{leaves}")?;
    let named = spaced(alloc, number.as_str(), kind_word(kind))?;
    let text = spaced(alloc, named.as_str(), leaves.as_str())?;
    put_line(out, "j", text.as_str())
}

/// Adds the last job's number, where one has begun: `n LAST`.
pub fn put_last(alloc: Global, out: &mut Bytes, last: u64) -> Result<(), NoMemory>
    ensures { OnOk result (out.new ≡ out.old ++ dump.last_line last) }
{
    if last == 0 {
        return Ok(());
    }
    let text = format!(in alloc; "{last}")?;
    put_line(out, "n", text.as_str())
}

// A field's contention at first; a plain field has none.
fn first_contention(kind: &FieldKind) -> u64
    ensures { result ≡ first_contention kind.now }
{
    match kind {
        FieldKind::Plain => 0,
        FieldKind::Equality { contention, .. } => *contention,
        FieldKind::Range { contention, .. } => *contention,
    }
}

// A field's current contention.
fn current_of(current: &[u64], number: usize) -> u64
    ensures { result ≡ current_of current.now number }
{
    match current.get(number) {
        Some(contention) => *contention,
        None => 0,
    }
}

// Adds a field's contention, where it isn't the first one.
fn put_contention(
    alloc: Global,
    out: &mut Bytes,
    field: &Field,
    current: u64,
) -> Result<(), NoMemory>
    ensures { OnOk result (out.new ≡ out.old ++ dump.contention_line field.now current) }
{
    if current == first_contention(&field.kind) {
        return Ok(());
    }
    let number = format!(in alloc; "{current}")?;
    let text = spaced(alloc, field.path.as_str(), number.as_str())?;
    put_line(out, "k", text.as_str())
}

/// Adds the contentions that aren't the first ones of their fields: `k PATH NUMBER`.
pub fn put_contentions(
    alloc: Global,
    out: &mut Bytes,
    fields: &[Field],
    current: &[u64],
) -> Result<(), NoMemory>
    requires { length fields.now ≤ 64 }
    ensures { OnOk result (out.new ≡ out.old ++ dump.contention_lines current.now 0 fields.now) }
{
    let mut number = 0;
    for field in fields {
        put_contention(alloc, out, field, current_of(current, number))?;
        number += 1;
    }
    Ok(())
}
