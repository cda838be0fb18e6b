//! The first line of a script.

ghost use Rattle.std.specs.Prelude.{◌≡◌, IfOk, map};
ghost use Rattle.serde_json.specs.View.{members_view};
ghost use Rattle.qe_base.specs.Answers.{Answers};
ghost use Rattle.qe_schema.specs.Judgements.{refuse_as};
ghost use Rattle.qe_schema.specs.Keys as kept;
ghost use Rattle.qe_schema.specs.Reading as reading;
ghost use Rattle.qe_raw.specs.Faults.{line_refusal, script_refusal};
ghost use Rattle.qe_raw.specs.Names.{rule_view};
ghost use Rattle.qe_raw.specs.declared.fault.ScriptFault.TheVariants as f;
ghost use Rattle.qe_raw.specs.declared.fault.ScriptKind.TheVariants as k;
ghost use Rattle.qe_script.specs.Header as spec;
ghost use Rattle.qe_script.specs.Read.{IsHeader};

use crate::callers::callers_in;
use crate::fields::fields_in;
use crate::script::Header;
use hex::FromHex;
use qe_base::{KeyList, Text};
use qe_bson::Document;
use qe_raw::{
    LineFault, Object, Rule, ScriptFault, ScriptKind, check_names, member, needed, read_json,
};
use qe_schema::{KeyFault, Keys, Schema, SchemaFault, what_is_read_is_a_schema};
use std::alloc::Global;

// The names of a header, and whether they have to be there.
const SEED: Rule = Rule {
    name: "seed",
    needed: true,
};

const FIELDS: Rule = Rule {
    name: "fields",
    needed: true,
};

const CALLERS: Rule = Rule {
    name: "callers",
    needed: false,
};

const BRIEF: Rule = Rule {
    name: "brief",
    needed: false,
};

const LEAF: Rule = Rule {
    name: "leaf",
    needed: false,
};

fn header_rules() -> &'static [Rule]
    ensures { map rule_view result.now ≡ spec.header_rules }
{
    &[SEED, FIELDS, CALLERS, BRIEF, LEAF]
}

fn seed_from(text: &str) -> Option<[u8; 32]>
    ensures { result ≡ spec.seed_from text.now }
{
    <[u8; 32] as FromHex>::from_hex(text).ok()
}

fn seed_in(alloc: Global, members: &Object) -> Result<[u8; 32], LineFault>
    ensures { Answers (λ it. it) line_refusal result (spec.seed_in (members_view members.now.entries)) }
{
    let json = needed(alloc, members, "seed")?;
    if let Some(text) = json.as_str()
        && let Some(seed) = seed_from(text)
    {
        return Ok(seed);
    }
    Err(LineFault::Kind(ScriptKind::BadValue(Text::of(alloc, "seed")?)))
}

fn flag_in(alloc: Global, name: &str, default: bool, members: &Object) -> Result<bool, LineFault>
    ensures { Answers (λ it. it) line_refusal result (spec.flag_in name.now default (members_view members.now.entries)) }
{
    let Some(json) = member(members, name) else {
        return Ok(default);
    };
    match json.as_bool() {
        Some(flag) => Ok(flag),
        None => Err(LineFault::Kind(ScriptKind::BadValue(Text::of(alloc, name)?))),
    }
}

fn schema_of(alloc: Global, document: &Document) -> Result<Schema, LineFault>
    ensures { Answers (λ it. it) line_refusal result (refuse_as k.Schema (reading.schema_of document.now)) }
{
    match Schema::read(alloc, document) {
        Ok(schema) => Ok(schema),
        Err(SchemaFault::NoMemory) => Err(LineFault::NoMemory),
        Err(fault) => Err(LineFault::Kind(ScriptKind::Schema(fault))),
    }
}

fn keys_of(alloc: Global, schema: &Schema, keys: KeyList) -> Result<Keys, LineFault>
    ensures { Answers (λ it. it) line_refusal result (refuse_as k.Keys (kept.keys_of schema.now keys)) }
{
    match Keys::new(alloc, schema, keys) {
        Ok(keys) => Ok(keys),
        Err(KeyFault::NoMemory) => Err(LineFault::NoMemory),
        Err(fault) => Err(LineFault::Kind(ScriptKind::Keys(fault))),
    }
}

fn schema_with(
    alloc: Global,
    document: &Document,
    keys: KeyList,
) -> Result<(Schema, Keys), LineFault>
    ensures { Answers (λ it. it) line_refusal result (spec.schema_with (document.now, keys)) }
{
    let schema = schema_of(alloc, document)?;
    let keys = keys_of(alloc, &schema, keys)?;
    Ok((schema, keys))
}

fn header_in(alloc: Global, members: &Object) -> Result<Header, LineFault>
    ensures { Answers (λ it. it) line_refusal result (spec.header_in (members_view members.now.entries)) }
{
    check_names(alloc, header_rules(), members)?;
    let seed = seed_in(alloc, members)?;
    let (document, keys) = fields_in(alloc, members)?;
    let callers = callers_in(alloc, members)?;
    let brief = flag_in(alloc, "brief", false, members)?;
    let leaf = flag_in(alloc, "leaf", true, members)?;
    let (schema, keys) = schema_with(alloc, &document, keys)?;
    Ok(Header {
        schema,
        keys,
        seed,
        callers,
        brief,
        leaf,
    })
}

fn header_of(alloc: Global, bytes: &[u8]) -> Result<Header, LineFault>
    ensures { Answers (λ it. it) line_refusal result (spec.header_of bytes.now) }
{
    let value = read_json(alloc, bytes)?;
    let Some(members) = value.as_object() else {
        return Err(LineFault::Kind(ScriptKind::NotObject));
    };
    header_in(alloc, members)
}

/// The header that a line is, or the first of its faults, as one of the line of this number. Its fields are a schema
/// with a key for each encrypted field, and its callers 1 to 16 distinct names.
pub fn read_header(alloc: Global, line: u64, bytes: &[u8]) -> Result<Header, ScriptFault>
    ensures exact { Answers (λ it. it) script_refusal result (refuse_as (f.At line) (spec.header_of bytes.now)) }
    ensures fits { IfOk result (λ header. IsHeader header.schema header.keys header.callers) }
{
    what_is_read_is_a_schema();
    match header_of(alloc, bytes) {
        Ok(header) => Ok(header),
        Err(fault) => Err(fault.at(line)),
    }
}
