//! Whether a command fits, and which value of its line is at fault where it doesn't.

ghost use Rattle.std.specs.Prelude.{◌≡◌, IfOk};
ghost use Rattle.qe_fits.specs.Fits as spec;

use crate::cells::has_bad_cell;
use crate::command::counted_length;
use crate::part::Part;
use qe_base::NoMemory;
use qe_field::Field;
use qe_plain::PlainCommand;
use qe_value::MOST_BYTES;
use std::alloc::Global;

// The value that has a name with a byte 0, or too many levels.
fn bad_value(fields: &[Field], command: &PlainCommand) -> Option<Part>
    ensures { result ≡ spec.bad_value fields.now command.now }
{
    match command {
        PlainCommand::Insert { doc } if has_bad_cell(fields, doc.cells.slice()) => Some(Part::Doc),
        PlainCommand::Update { set, .. } if has_bad_cell(fields, set.slice()) => Some(Part::Set),
        _ => None,
    }
}

// The value that is at fault where the length alone is.
fn long_part(command: &PlainCommand) -> Part
    ensures { result ≡ spec.long_part command.now }
{
    match command {
        PlainCommand::Insert { .. } => Part::Doc,
        _ => Part::Filter,
    }
}

/// The value of the command's line that is at fault where its document can't be written.
pub fn misfit(
    alloc: Global,
    fields: &[Field],
    command: &PlainCommand,
) -> Result<Option<Part>, NoMemory>
    ensures exact { IfOk result (λ part. part ≡ spec.misfit fields.now command.now) }
{
    if let Some(part) = bad_value(fields, command) {
        return Ok(Some(part));
    }
    let length = counted_length(alloc, fields, command)?;
    if length as usize <= MOST_BYTES {
        Ok(None)
    } else {
        Ok(Some(long_part(command)))
    }
}

// Whether an int64 holds the job's number.
fn job_fits(command: &PlainCommand) -> bool
    ensures { result ≡ spec.job_fits command.now }
{
    match command {
        PlainCommand::Step { job, .. } => *job < 1 << 63,
        PlainCommand::End { job } => *job < 1 << 63,
        PlainCommand::Abandon { job } => *job < 1 << 63,
        _ => true,
    }
}

/// Whether the command's document can be written: it has at most 16,777,216 bytes, counted over the command, and 100
/// levels, no name with a byte 0, and a job that an int64 holds.
pub fn fits(alloc: Global, fields: &[Field], command: &PlainCommand) -> Result<bool, NoMemory>
    ensures exact { IfOk result (λ fit. fit ≡ spec.fits fields.now command.now) }
{
    let fault = misfit(alloc, fields, command)?;
    Ok(job_fits(command) && fault.is_none())
}
