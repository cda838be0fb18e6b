//! The lines behind the header.

ghost use Rattle.std.specs.Prelude.{◌≡◌, ◌<◌, IfOk, length};
ghost use Rattle.qe_base.specs.Answers.{Answers};
ghost use Rattle.qe_schema.specs.Judgements.{refuse_as};
ghost use Rattle.qe_raw.specs.Faults.{line_refusal, script_refusal};
ghost use Rattle.qe_raw.specs.declared.fault.ScriptFault.TheVariants as f;
ghost use Rattle.qe_script.specs.Line as spec;
ghost use Rattle.qe_script.specs.Read.{IsRead};

use crate::script::{Header, Line};
use qe_base::Text;
use qe_raw::{LineFault, ScriptFault, ScriptKind, raw_line};
use qe_schema::{PlainCommand, PlainFault, RawCommand, Schema};
use std::alloc::Global;

fn command_of(alloc: Global, schema: &Schema, raw: &RawCommand) -> Result<PlainCommand, LineFault>
    ensures { Answers (λ it. it) line_refusal result (spec.command_of schema.now raw.now) }
{
    match schema.resolve(alloc, raw) {
        Ok(command) => Ok(command),
        Err(PlainFault::NoMemory) => Err(LineFault::NoMemory),
        Err(fault) => Err(LineFault::Kind(ScriptKind::Plain(fault))),
    }
}

fn line_of(alloc: Global, header: &Header, bytes: &[u8]) -> Result<Line, LineFault>
    ensures { Answers (λ it. it) line_refusal result (spec.line_of header.now bytes.now) }
{
    let (caller, raw) = raw_line(alloc, header.callers.slice(), bytes)?;
    let command = command_of(alloc, &header.schema, &raw)?;
    if let Some(part) = header.schema.misfit(alloc, &command)? {
        let name = Text::of(alloc, part.name())?;
        return Err(LineFault::Kind(ScriptKind::BadValue(name)));
    }
    Ok(Line { caller, command })
}

/// The command that a line is under a header, and its caller, or the first of its faults, as one of the line of this
/// number.
pub fn read_line(
    alloc: Global,
    header: &Header,
    line: u64,
    bytes: &[u8],
) -> Result<Line, ScriptFault>
    ensures exact { Answers (λ it. it) script_refusal result (refuse_as (f.At line) (spec.line_of header.now bytes.now)) }
    ensures fits { IfOk result (λ read. 0 < length header.now.callers → IsRead header.now.schema header.now.callers read) }
{
    match line_of(alloc, header, bytes) {
        Ok(found) => Ok(found),
        Err(fault) => Err(fault.at(line)),
    }
}
