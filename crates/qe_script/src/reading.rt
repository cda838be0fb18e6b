//! Scripts read line by line, to the first line that isn't one of a script.

ghost use Rattle.std.specs.Prelude.{◌≡◌, IfOk};
ghost use Rattle.qe_base.specs.Answers.{Answers};
ghost use Rattle.qe_raw.specs.Faults.{script_refusal};
ghost use Rattle.qe_raw.specs.Lines.{numbered};
ghost use Rattle.qe_schema.specs.Judgements.{ahead, Leaves};
ghost use Rattle.qe_script.specs.Read.{IsScript};
ghost use Rattle.qe_script.specs.Script as spec;

use crate::header::read_header;
use crate::line::read_line;
use crate::script::{Header, Lines, Script};
use qe_base::Lines as Remaining;
use qe_raw::{ScriptFault, ScriptKind, next_line};
use qe_schema::what_is_read_is_a_schema;
use std::alloc::Global;

// Adds the command of a line.
#[tactic(auto, unfolding(crate::specs::Script::one_line))]
fn add_line(
    alloc: Global,
    header: &Header,
    number: u64,
    bytes: &[u8],
    read: &mut Lines,
) -> Result<(), ScriptFault>
    ensures { Leaves script_refusal result read.new (ahead read.old (spec.one_line header.now (number, bytes.now))) }
{
    let line = read_line(alloc, header, number, bytes)?;
    read.push(line)?;
    Ok(())
}

fn lines_of(alloc: Global, header: &Header, mut lines: Remaining<'_>) -> Result<Lines, ScriptFault>
    ensures { Answers (λ it. it) script_refusal result (spec.lines_of header.now (numbered lines.entry)) }
{
    let mut read = Lines::new(alloc);
    while let Some((number, bytes)) = next_line(&mut lines) {
        add_line(alloc, header, number, bytes, &mut read)?;
    }
    Ok(read)
}

fn script_of(alloc: Global, bytes: &[u8]) -> Result<Script, ScriptFault>
    ensures { Answers (λ it. it) script_refusal result (spec.script_of bytes.now) }
{
    let mut lines = Remaining::of(bytes);
    let Some((number, first)) = next_line(&mut lines) else {
        return Err(ScriptFault::At {
            line: 1,
            kind: ScriptKind::NoHeader,
        });
    };
    let header = read_header(alloc, number, first)?;
    let lines = lines_of(alloc, &header, lines)?;
    Ok(header.with(lines))
}

/// The script that the bytes are, or the first faulty line with the first of its faults. Lines of spaces, tabs and
/// carriage returns alone are skipped, but counted.
pub fn read_script(alloc: Global, bytes: &[u8]) -> Result<Script, ScriptFault>
    ensures exact { Answers (λ it. it) script_refusal result (spec.script_of bytes.now) }
    ensures fits { IfOk result IsScript }
{
    what_is_read_is_a_schema();
    script_of(alloc, bytes)
}
