//! Raw commands: a line judged without a schema.

ghost use Rattle.std.specs.Prelude.{◌≡◌};
ghost use Rattle.serde_json.specs.View.{members_view};
ghost use Rattle.qe_base.specs.Answers.{Answers};
ghost use Rattle.qe_schema.specs.Judgements.{refuse_as};
ghost use Rattle.qe_raw.specs.Faults.{line_refusal, script_refusal};
ghost use Rattle.qe_raw.specs.Raw as raw;
ghost use Rattle.qe_raw.specs.declared.fault.ScriptFault.TheVariants as f;

use crate::caller::caller_in;
use crate::fault::{LineFault, ScriptFault, ScriptKind};
use crate::names::check_names;
use crate::object::{Object, read_json};
use crate::values::{
    field_in, kind_in, limit_in, needed_document, needed_whole, optional_document, searched,
};
use crate::verb::{Verb, rules_of, verb_in};
use qe_base::{Text, Texts};
use qe_schema::RawCommand;
use std::alloc::Global;

fn update_in(alloc: Global, members: &Object) -> Result<RawCommand, LineFault>
    ensures { Answers (λ it. it) line_refusal result (raw.update_in (members_view members.now.entries)) }
{
    let filter = needed_document(alloc, members, "filter")?;
    let set = needed_document(alloc, members, "set")?;
    Ok(RawCommand::Update { filter, set })
}

fn begin_in(alloc: Global, members: &Object) -> Result<RawCommand, LineFault>
    ensures { Answers (λ it. it) line_refusal result (raw.begin_in (members_view members.now.entries)) }
{
    let kind = kind_in(alloc, members)?;
    let tokens = optional_document(alloc, members, "tokens")?;
    Ok(RawCommand::Begin { kind, tokens })
}

fn step_in(alloc: Global, members: &Object) -> Result<RawCommand, LineFault>
    ensures { Answers (λ it. it) line_refusal result (raw.step_in (members_view members.now.entries)) }
{
    let job = needed_whole(alloc, members, "job")?;
    let limit = limit_in(alloc, members)?;
    Ok(RawCommand::Step { job, limit })
}

fn raise_in(alloc: Global, members: &Object) -> Result<RawCommand, LineFault>
    ensures { Answers (λ it. it) line_refusal result (raw.raise_in (members_view members.now.entries)) }
{
    let field = field_in(alloc, members)?;
    let contention = needed_whole(alloc, members, "contention")?;
    Ok(RawCommand::Raise { field, contention })
}

/// The command of a line, by its values in the order of the table.
pub fn command_in(alloc: Global, verb: Verb, members: &Object) -> Result<RawCommand, LineFault>
    ensures { Answers (λ it. it) line_refusal result (raw.command_in verb (members_view members.now.entries)) }
{
    match verb {
        Verb::Insert => {
            let doc = needed_document(alloc, members, "doc")?;
            Ok(RawCommand::Insert { doc })
        }
        Verb::Find => {
            let filter = searched(alloc, members)?;
            Ok(RawCommand::Find { filter, ids: false })
        }
        Verb::Ids => {
            let filter = searched(alloc, members)?;
            Ok(RawCommand::Find { filter, ids: true })
        }
        Verb::Update => update_in(alloc, members),
        Verb::Delete => {
            let filter = needed_document(alloc, members, "filter")?;
            Ok(RawCommand::Delete { filter })
        }
        Verb::Begin => begin_in(alloc, members),
        Verb::Step => step_in(alloc, members),
        Verb::End => {
            let job = needed_whole(alloc, members, "job")?;
            Ok(RawCommand::End { job })
        }
        Verb::Abandon => {
            let job = needed_whole(alloc, members, "job")?;
            Ok(RawCommand::Abandon { job })
        }
        Verb::Raise => raise_in(alloc, members),
    }
}

/// The caller's number and the raw command of an object, or the first of its faults.
pub fn object_command(
    alloc: Global,
    callers: &[Text],
    members: &Object,
) -> Result<(u32, RawCommand), LineFault>
    ensures { Answers (λ it. it) line_refusal result (raw.object_command callers.now (members_view members.now.entries)) }
{
    let verb = verb_in(alloc, members)?;
    check_names(alloc, rules_of(verb), members)?;
    let caller = caller_in(alloc, callers, members)?;
    let command = command_in(alloc, verb, members)?;
    Ok((caller, command))
}

/// The caller's number and the raw command of a line, or the first of its faults.
pub fn raw_line(
    alloc: Global,
    callers: &[Text],
    bytes: &[u8],
) -> Result<(u32, RawCommand), LineFault>
    ensures exact { Answers (λ it. it) line_refusal result (raw.raw_of callers.now bytes.now) }
{
    let value = read_json(alloc, bytes)?;
    let Some(members) = value.as_object() else {
        return Err(LineFault::Kind(ScriptKind::NotObject));
    };
    object_command(alloc, callers, members)
}

/// The caller's number and the raw command of a line, or the first of its faults, as one of the line of this number:
/// it isn't JSON, no object, has no command's name, an unknown name, lacks one, or a value hasn't its form.
pub fn read_raw(
    alloc: Global,
    callers: &Texts,
    line: u64,
    bytes: &[u8],
) -> Result<(u32, RawCommand), ScriptFault>
    ensures exact { Answers (λ it. it) script_refusal result (refuse_as (f.At line) (raw.raw_of callers.now bytes.now)) }
{
    match raw_line(alloc, callers.slice(), bytes) {
        Ok(found) => Ok(found),
        Err(fault) => Err(fault.at(line)),
    }
}
