//! The JSON of a line.

ghost use Rattle.std.specs.Prelude.{◌≡◌};
ghost use Rattle.serde_json.specs.View.{view};
ghost use Rattle.qe_base.specs.Answers.{Answers};
ghost use Rattle.qe_schema.specs.Judgements.{some_or};
ghost use Rattle.qe_raw.specs.Faults.{line_refusal};
ghost use Rattle.qe_raw.specs.Objects.{json_of};
ghost use Rattle.qe_raw.specs.declared.fault.ScriptKind.TheVariants as k;

use crate::fault::{LineFault, ScriptKind};
use serde_json::{Map, Value as Json};
use std::alloc::Global;

/// The members of an object, in the byte order of their names; of equal names the last one stays.
pub type Object = Map<String, Json>;

/// The JSON value that a line is, or `NotJson`.
#[tactic(auto, unfolding(crate::specs::Objects::json_of))]
pub fn read_json(alloc: Global, line: &[u8]) -> Result<Json, LineFault>
    ensures { Answers view line_refusal result (some_or k.NotJson (json_of line.now)) }
{
    let Ok(text) = std::str::from_utf8(line) else {
        return Err(LineFault::Kind(ScriptKind::NotJson));
    };
    match Json::from_str(alloc, text) {
        Ok(value) => Ok(value),
        Err(error) => if error.is_memory() {
            Err(LineFault::NoMemory)
        } else {
            Err(LineFault::Kind(ScriptKind::NotJson))
        },
    }
}
