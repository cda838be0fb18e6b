//! Scripts: the refusal, or what the script says.

use crate::command;
use crate::part::print_part;
use crate::replies::{print_each, print_found};
use qe_base::{Bytes, Lines, Texts};
use qe_line::{Fault, Hex, print_line};
use qe_schema::{PlainCommand, Schema};
use qe_script::{Line, Script, ScriptFault, ScriptKind, read_script, refusal_text};

fn print_header(rt: &HostRuntime, script: &Script) -> Result<(), Fault> {
    let (brief, leaf) = (script.brief, script.leaf);
    print_line(
        rt,
        format_args!("seed {} brief {brief} leaf {leaf}", Hex(&script.seed)),
    )?;
    let (fields, keys) = (script.schema.len(), script.keys.len());
    print_part(rt, format_args!("fields {fields} keys {keys} callers"))?;
    print_callers(rt, &script.callers)
}

fn print_callers(rt: &HostRuntime, callers: &Texts) -> Result<(), Fault> {
    for caller in callers.slice() {
        print_part(rt, format_args!(" {}", caller.as_str()))?;
    }
    print_line(rt, "")
}

fn print_command(rt: &HostRuntime, schema: &Schema, line: &Line) -> Result<(), Fault> {
    print_part(rt, format_args!("{} ", line.caller))?;
    command::print(rt, &line.command)?;
    print_line(rt, "")?;
    match &line.command {
        PlainCommand::Insert { doc } => print_found(rt, schema, doc),
        _ => Ok(()),
    }
}

fn print_script(rt: &HostRuntime, script: &Script) -> Result<(), Fault> {
    print_header(rt, script)?;
    for line in script.lines.slice() {
        print_command(rt, &script.schema, line)?;
    }
    if script.brief {
        return print_each(rt, &script.schema);
    }
    Ok(())
}

fn print_refusal(rt: &HostRuntime, line: u64, kind: &ScriptKind) -> Result<(), Fault> {
    let text = refusal_text(rt.alloc(), line, kind)?;
    print_line(rt, text.as_str())
}

fn print_answer(rt: &HostRuntime, bytes: &[u8]) -> Result<(), Fault> {
    match read_script(rt.alloc(), bytes) {
        Ok(script) => print_script(rt, &script),
        Err(ScriptFault::At { line, kind }) => print_refusal(rt, line, &kind),
        Err(ScriptFault::NoMemory) => Err(Fault::NoMemory),
    }
}

fn print_name(rt: &HostRuntime, name: &[u8]) -> Result<(), Fault> {
    let Ok(name) = std::str::from_utf8(name) else {
        return Err(Fault::Refused);
    };
    print_line(rt, name)
}

/// Prints what is answered to each script; a script begins behind its name's line, which begins with `#`.
pub fn print_all(rt: &HostRuntime, text: &[u8]) -> Result<(), Fault> {
    let mut lines = Lines::of(text);
    let mut script = Bytes::new(rt.alloc());
    let mut begun = false;
    while let Some((_, line)) = lines.next_line() {
        if line.first() == Some(&b'#') {
            if begun {
                print_answer(rt, script.slice())?;
            }
            print_name(rt, line)?;
            script = Bytes::new(rt.alloc());
            begun = true;
        } else {
            script.extend(line)?;
            script.push(b'\n')?;
        }
    }
    print_answer(rt, script.slice())
}
