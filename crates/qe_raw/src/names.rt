//! The names of an object.

ghost use Rattle.std.specs.Prelude.{◌≡◌, map, option_map};
ghost use Rattle.serde_json.specs.Find.{get_member};
ghost use Rattle.serde_json.specs.View.{view, members_view};
ghost use Rattle.qe_base.specs.Answers.{Answers};
ghost use Rattle.qe_raw.specs.Faults.{line_refusal};
ghost use Rattle.qe_raw.specs.Names as names;

use crate::fault::{LineFault, ScriptKind};
use crate::object::Object;
use qe_base::Text;
use serde_json::Value as Json;
use std::alloc::Global;

/// A name that an object may have, and whether it has to be there.
#[derive(Clone, Copy, Debug)]
pub struct Rule {
    pub name: &'static str,
    pub needed: bool,
}

/// The value of a name, if it is there.
pub fn member<'a>(members: &'a Object, name: &str) -> Option<&'a Json>
    ensures { option_map (λ value. view value.now) result ≡ get_member name.now (members_view members.now.entries) }
{
    members.get(name)
}

fn is_known(rules: &[Rule], name: &str) -> bool
    ensures { result ≡ names.is_known (map names.rule_view rules.now) name.now }
{
    for rule in rules {
        if name == rule.name {
            return true;
        }
    }
    false
}

fn first_unknown<'a>(rules: &[Rule], members: &'a Object) -> Option<&'a str>
    ensures { option_map (λ name. name.now) result ≡ names.first_unknown (map names.rule_view rules.now) (members_view members.now.entries) }
{
    for (name, _) in members.iter() {
        if !is_known(rules, name.as_str()) {
            return Some(name.as_str());
        }
    }
    None
}

fn first_missing(rules: &[Rule], members: &Object) -> Option<&'static str>
    ensures { option_map (λ name. name.now) result ≡ names.first_missing (map names.rule_view rules.now) (members_view members.now.entries) }
{
    for rule in rules {
        if rule.needed && member(members, rule.name).is_none() {
            return Some(rule.name);
        }
    }
    None
}

/// Refuses the first name that no rule knows, or else the first one that is needed and isn't there.
pub fn check_names(alloc: Global, rules: &[Rule], members: &Object) -> Result<(), LineFault>
    ensures { Answers (λ it. it) line_refusal result (names.checked_names (map names.rule_view rules.now) (members_view members.now.entries)) }
{
    if let Some(name) = first_unknown(rules, members) {
        return Err(LineFault::Kind(ScriptKind::Unknown(Text::of(alloc, name)?)));
    }
    if let Some(name) = first_missing(rules, members) {
        return Err(LineFault::Kind(ScriptKind::Missing(Text::of(alloc, name)?)));
    }
    Ok(())
}
