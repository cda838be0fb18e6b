//! The header's callers.

ghost use Rattle.std.specs.Prelude.{◌≡◌, [], None};
ghost use Rattle.serde_json.specs.View.{view, items_view, members_view};
ghost use Rattle.qe_base.specs.Answers.{Answers};
ghost use Rattle.qe_raw.specs.Faults.{line_refusal};
ghost use Rattle.qe_script.specs.Callers as callers;

use qe_base::{Text, Texts};
use qe_field::is_path;
use qe_raw::{LineFault, Object, ScriptKind, member};
use serde_json::Value as Json;
use std::alloc::Global;

/// The most callers.
const MOST_CALLERS: usize = 16;

fn is_among(name: &str, earlier: &[Text]) -> bool
    ensures { result ≡ callers.is_among name.now earlier.now }
{
    for other in earlier {
        if name == other.as_str() {
            return true;
        }
    }
    false
}

fn caller_of(alloc: Global, earlier: &[Text], json: &Json) -> Result<Text, LineFault>
    ensures { Answers (λ it. it) line_refusal result (callers.caller_of earlier.now (view json.now)) }
{
    if let Some(name) = json.as_str()
        && is_path(name)
        && !is_among(name, earlier)
    {
        return Ok(Text::of(alloc, name)?);
    }
    Err(LineFault::Kind(ScriptKind::BadValue(Text::of(alloc, "callers")?)))
}

fn callers_of(alloc: Global, items: &[Json]) -> Result<Texts, LineFault>
    ensures { Answers (λ it. it) line_refusal result (callers.callers_after [] (items_view items.now)) }
{
    let mut names = Texts::new(alloc);
    for item in items {
        let name = caller_of(alloc, names.slice(), item)?;
        names.push(name)?;
    }
    Ok(names)
}

#[tactic(auto, unfolding(crate::specs::Callers::is_some_few))]
fn is_some_few(items: &[Json]) -> bool
    ensures { result ≡ callers.is_some_few (items_view items.now) }
{
    1 <= items.len() && items.len() <= MOST_CALLERS
}

fn some_callers(alloc: Global, items: &[Json]) -> Result<Texts, LineFault>
    ensures { Answers (λ it. it) line_refusal result (callers.some_callers (items_view items.now)) }
{
    if !is_some_few(items) {
        return Err(LineFault::Kind(ScriptKind::BadValue(Text::of(alloc, "callers")?)));
    }
    callers_of(alloc, items)
}

fn one_caller(alloc: Global) -> Result<Texts, LineFault>
    ensures { Answers (λ it. it) line_refusal result (callers.callers_from None) }
{
    let mut names = Texts::new(alloc);
    names.push(Text::of(alloc, "a")?)?;
    Ok(names)
}

/// The callers' names, 1 to 16; without any there is one, `a`.
pub(crate) fn callers_in(alloc: Global, members: &Object) -> Result<Texts, LineFault>
    ensures { Answers (λ it. it) line_refusal result (callers.callers_in (members_view members.now.entries)) }
{
    let Some(json) = member(members, "callers") else {
        return one_caller(alloc);
    };
    let Some(items) = json.as_array() else {
        return Err(LineFault::Kind(ScriptKind::BadValue(Text::of(alloc, "callers")?)));
    };
    some_callers(alloc, items.as_slice())
}
