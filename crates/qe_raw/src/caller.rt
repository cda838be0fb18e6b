//! Who gives a command.

ghost use Rattle.std.specs.Prelude.{◌≡◌};
ghost use Rattle.serde_json.specs.View.{members_view};
ghost use Rattle.qe_base.specs.Answers.{Answers};
ghost use Rattle.qe_raw.specs.Callers as callers;
ghost use Rattle.qe_raw.specs.Faults.{line_refusal};

use crate::fault::{LineFault, ScriptKind};
use crate::names::member;
use crate::object::Object;
use qe_base::Text;
use std::alloc::Global;

// The number of the first caller with a name, where 32 bits have it.
fn number_of(names: &[Text], name: &str) -> Option<u32>
    ensures { result ≡ callers.number_of names.now name.now }
{
    for i in 0..names.len() {
        if name == names[i].as_str() {
            return u32::try_from(i).ok();
        }
    }
    None
}

/// The number of the caller of a line, from 0: the one that `by` names, or the first.
pub fn caller_in(alloc: Global, names: &[Text], members: &Object) -> Result<u32, LineFault>
    ensures { Answers (λ it. it) line_refusal result (callers.caller_in names.now (members_view members.now.entries)) }
{
    let Some(value) = member(members, "by") else {
        return Ok(0);
    };
    if let Some(name) = value.as_str()
        && let Some(number) = number_of(names, name)
    {
        return Ok(number);
    }
    Err(LineFault::Kind(ScriptKind::BadValue(Text::of(alloc, "by")?)))
}
