//! The commands' names, and the names that a command's line has.

ghost use Rattle.std.specs.Prelude.{◌≡◌, map};
ghost use Rattle.serde_json.specs.View.{members_view};
ghost use Rattle.qe_base.specs.Answers.{Answers};
ghost use Rattle.qe_raw.specs.Faults.{line_refusal};
ghost use Rattle.qe_raw.specs.Names.{rule_view};
ghost use Rattle.qe_raw.specs.Verbs as verbs;

use crate::fault::{LineFault, ScriptKind};
use crate::names::{Rule, member};
use crate::object::Object;
use qe_base::Text;
use std::alloc::Global;

/// A command's name.
#[derive(Clone, Copy, Debug, PartialEq, Eq)]
pub enum Verb {
    Insert,
    Find,
    Ids,
    Update,
    Delete,
    Begin,
    Step,
    End,
    Abandon,
    Raise,
}

fn verb_named(name: &str) -> Option<Verb>
    ensures { result ≡ verbs.verb_named name.now }
{
    if name == "insert" {
        Some(Verb::Insert)
    } else if name == "find" {
        Some(Verb::Find)
    } else if name == "ids" {
        Some(Verb::Ids)
    } else if name == "update" {
        Some(Verb::Update)
    } else if name == "delete" {
        Some(Verb::Delete)
    } else if name == "begin" {
        Some(Verb::Begin)
    } else if name == "step" {
        Some(Verb::Step)
    } else if name == "end" {
        Some(Verb::End)
    } else if name == "abandon" {
        Some(Verb::Abandon)
    } else if name == "raise" {
        Some(Verb::Raise)
    } else {
        None
    }
}

/// The command that a line is about.
pub fn verb_in(alloc: Global, members: &Object) -> Result<Verb, LineFault>
    ensures { Answers (λ it. it) line_refusal result (verbs.verb_in (members_view members.now.entries)) }
{
    let Some(value) = member(members, "do") else {
        return Err(LineFault::Kind(ScriptKind::Missing(Text::of(alloc, "do")?)));
    };
    if let Some(name) = value.as_str()
        && let Some(verb) = verb_named(name)
    {
        return Ok(verb);
    }
    Err(LineFault::Kind(ScriptKind::BadValue(Text::of(alloc, "do")?)))
}

// The names, and whether they have to be there.
const DO: Rule = Rule {
    name: "do",
    needed: true,
};

const BY: Rule = Rule {
    name: "by",
    needed: false,
};

const DOC: Rule = Rule {
    name: "doc",
    needed: true,
};

const FILTER: Rule = Rule {
    name: "filter",
    needed: true,
};

const FILTER_IF_ANY: Rule = Rule {
    name: "filter",
    needed: false,
};

const SET: Rule = Rule {
    name: "set",
    needed: true,
};

const KIND: Rule = Rule {
    name: "kind",
    needed: true,
};

const TOKENS: Rule = Rule {
    name: "tokens",
    needed: false,
};

const JOB: Rule = Rule {
    name: "job",
    needed: true,
};

const LIMIT: Rule = Rule {
    name: "limit",
    needed: false,
};

const FIELD: Rule = Rule {
    name: "field",
    needed: true,
};

const CONTENTION: Rule = Rule {
    name: "contention",
    needed: true,
};

/// The names of a command's line, in the order in which their values are read.
pub fn rules_of(verb: Verb) -> &'static [Rule]
    ensures { map rule_view result.now ≡ verbs.rules_of verb }
{
    match verb {
        Verb::Insert => &[DO, BY, DOC],
        Verb::Find | Verb::Ids => &[DO, BY, FILTER_IF_ANY],
        Verb::Update => &[DO, BY, FILTER, SET],
        Verb::Delete => &[DO, BY, FILTER],
        Verb::Begin => &[DO, BY, KIND, TOKENS],
        Verb::Step => &[DO, BY, JOB, LIMIT],
        Verb::End | Verb::Abandon => &[DO, BY, JOB],
        Verb::Raise => &[DO, BY, FIELD, CONTENTION],
    }
}
