//! Why a script is refused, as a line.

ghost use Rattle.std.specs.Prelude.{◌≡◌, Ok, IfOk, string_bytes};
ghost use Rattle.qe_base.specs.Answers.{Answers};
ghost use Rattle.qe_texts.specs.Faults.{print_refusal};
ghost use Rattle.qe_texts.specs.Refusals as refusals;

use crate::fault::PrintFault;
use crate::phrases::{alone, counted, named, twice_counted};
use qe_base::{NoMemory, Text};
use qe_edges::DomainFault;
use qe_raw::ScriptKind;
use qe_schema::{KeyFault, PlainFault, SchemaFault};
use std::alloc::Global;

fn domain_name(fault: &DomainFault) -> &'static str
    ensures { result.now ≡ refusals.domain_name fault.now }
{
    match fault {
        DomainFault::MinNotBelowMax => "MinNotBelowMax",
        DomainFault::SparsityRange => "SparsityRange",
        DomainFault::TrimRange => "TrimRange",
    }
}

fn domain_text(alloc: Global, field: u32, fault: &DomainFault) -> Result<String, PrintFault>
    ensures { Answers string_bytes print_refusal result (Ok (refusals.domain_text field fault.now)) }
{
    let counted = counted(alloc, "BadDomain", u64::from(field))?;
    named(alloc, counted.as_str(), domain_name(fault))
}

fn schema_text(alloc: Global, fault: &SchemaFault) -> Result<String, PrintFault>
    ensures { Answers string_bytes print_refusal result (Ok (refusals.schema_text fault.now)) }
{
    match fault {
        SchemaFault::NotFields => alone(alloc, "NotFields"),
        SchemaFault::TooManyFields(n) => counted(alloc, "TooManyFields", *n),
        SchemaFault::BadForm(field) => counted(alloc, "BadForm", u64::from(*field)),
        SchemaFault::BadPath(field) => counted(alloc, "BadPath", u64::from(*field)),
        SchemaFault::DuplicateField { first, second } => twice_counted(
            alloc,
            "DuplicateField",
            u64::from(*first),
            u64::from(*second),
        ),
        SchemaFault::BadType(field) => counted(alloc, "BadType", u64::from(*field)),
        SchemaFault::BadKeyId(field) => counted(alloc, "BadKeyId", u64::from(*field)),
        SchemaFault::DuplicateKeyId { first, second } => twice_counted(
            alloc,
            "DuplicateKeyId",
            u64::from(*first),
            u64::from(*second),
        ),
        SchemaFault::BadContention(field) => counted(alloc, "BadContention", u64::from(*field)),
        SchemaFault::BadDomain { field, fault } => domain_text(alloc, *field, fault),
        SchemaFault::NoMemory => alone(alloc, "NoMemory"),
    }
}

fn key_text(alloc: Global, fault: &KeyFault) -> Result<String, PrintFault>
    ensures { Answers string_bytes print_refusal result (Ok (refusals.key_text fault.now)) }
{
    match fault {
        KeyFault::WrongNumber { want, got } => twice_counted(alloc, "WrongNumber", *want, *got),
        KeyFault::DuplicateRoot { first, second } => twice_counted(
            alloc,
            "DuplicateRoot",
            u64::from(*first),
            u64::from(*second),
        ),
        KeyFault::NoMemory => alone(alloc, "NoMemory"),
    }
}

fn plain_text(alloc: Global, fault: &PlainFault) -> Result<String, PrintFault>
    ensures { Answers string_bytes print_refusal result (Ok (refusals.plain_text fault.now)) }
{
    match fault {
        PlainFault::NoId => alone(alloc, "NoId"),
        PlainFault::BadId => alone(alloc, "BadId"),
        PlainFault::ReservedName(name) => named(alloc, "ReservedName", name.as_str()),
        PlainFault::UnknownField(name) => named(alloc, "UnknownField", name.as_str()),
        PlainFault::NotIndexed(name) => named(alloc, "NotIndexed", name.as_str()),
        PlainFault::TypeDiffers(name) => named(alloc, "TypeDiffers", name.as_str()),
        PlainFault::OutOfDomain(name) => named(alloc, "OutOfDomain", name.as_str()),
        PlainFault::BadFilter(name) => named(alloc, "BadFilter", name.as_str()),
        PlainFault::BadLimit(limit) => counted(alloc, "BadLimit", *limit),
        PlainFault::BadContention(contention) => counted(alloc, "BadContention", *contention),
        PlainFault::NoMemory => alone(alloc, "NoMemory"),
    }
}

fn kind_text(alloc: Global, kind: &ScriptKind) -> Result<String, PrintFault>
    ensures { Answers string_bytes print_refusal result (Ok (refusals.kind_text kind.now)) }
{
    match kind {
        ScriptKind::NoHeader => alone(alloc, "NoHeader"),
        ScriptKind::NotJson => alone(alloc, "NotJson"),
        ScriptKind::NotObject => alone(alloc, "NotObject"),
        ScriptKind::Unknown(name) => named(alloc, "Unknown", name.as_str()),
        ScriptKind::Missing(name) => named(alloc, "Missing", name.as_str()),
        ScriptKind::BadValue(name) => named(alloc, "BadValue", name.as_str()),
        ScriptKind::Schema(fault) => schema_text(alloc, fault),
        ScriptKind::Keys(fault) => key_text(alloc, fault),
        ScriptKind::Plain(fault) => plain_text(alloc, fault),
    }
}

fn refusal_line(alloc: Global, line: u64, kind: &ScriptKind) -> Result<String, PrintFault>
    ensures { Answers string_bytes print_refusal result (Ok (refusals.refusal_line line kind.now)) }
{
    let kind = kind_text(alloc, kind)?;
    let counted = counted(alloc, "bad line", line)?;
    named(alloc, counted.as_str(), kind.as_str())
}

/// The line that tells why a script is refused, without its end: `bad line L KIND`, and behind it the fault's names and
/// numbers. A name stands as it is, even one with a line feed.
pub fn refusal_text(alloc: Global, line: u64, kind: &ScriptKind) -> Result<Text, NoMemory>
    ensures { IfOk result (λ text. text ≡ refusals.refusal_line line kind.now) }
{
    match refusal_line(alloc, line, kind) {
        Ok(text) => Text::of(alloc, text.as_str()),
        Err(_) => Err(NoMemory),
    }
}
