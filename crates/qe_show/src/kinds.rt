//! The names of refusals.

ghost use Rattle.std.specs.Prelude.{◌≡◌, IfOk};
ghost use Rattle.qe_show.specs.Kinds.{with_number, bson_kind_text, bson_text, kind_text, indexed_text};

use qe_base::{Bytes, NoMemory};
use qe_document::{BsonFault, BsonKind};
use qe_indexed::IndexedFault;
use qe_payload::Kind;
use std::alloc::Global;

fn name(alloc: Global, name: &str) -> Result<Bytes, NoMemory>
    ensures { IfOk result (λ text. text ≡ name.now) }
{
    Bytes::from_slice(alloc, name.as_bytes())
}

fn with_number(alloc: Global, name: &str, number: u64) -> Result<Bytes, NoMemory>
    ensures { IfOk result (λ text. text ≡ with_number name.now number) }
{
    let text = format!(in alloc; "{name} {number}")?;
    Bytes::from_slice(alloc, text.as_bytes())
}

#[tactic(auto, unfolding(crate::specs::Kinds::bson_kind_text))]
fn bson_kind_name(kind: BsonKind) -> &'static str
    ensures { result.now ≡ bson_kind_text kind }
{
    match kind {
        BsonKind::Short => "Short",
        BsonKind::LengthWrong => "LengthWrong",
        BsonKind::TooLong => "TooLong",
        BsonKind::NoTerminator => "NoTerminator",
        BsonKind::TypeUnknown => "TypeUnknown",
        BsonKind::NotUtf8 => "NotUtf8",
        BsonKind::DuplicateName => "DuplicateName",
        BsonKind::ArrayKey => "ArrayKey",
        BsonKind::BadBool => "BadBool",
        BsonKind::TooDeep => "TooDeep",
    }
}

#[tactic(auto, unfolding(crate::specs::Kinds::bson_text))]
fn bson_text(alloc: Global, fault: BsonFault) -> Result<Bytes, NoMemory>
    ensures { IfOk result (λ text. text ≡ bson_text fault) }
{
    match fault {
        BsonFault::At { place, kind } => {
            let kind = bson_kind_name(kind);
            let text = format!(in alloc; "Bson {kind} {place}")?;
            Bytes::from_slice(alloc, text.as_bytes())
        }
        BsonFault::NoMemory => name(alloc, "Bson"),
    }
}

/// The name of a refusal, and its numbers behind it.
#[tactic(auto, unfolding(crate::specs::Kinds::kind_text))]
pub fn kind_text(alloc: Global, kind: Kind) -> Result<Bytes, NoMemory>
    ensures { IfOk result (λ text. text ≡ kind_text kind) }
{
    match kind {
        Kind::Empty => name(alloc, "Empty"),
        Kind::BlobSubtype(first) => with_number(alloc, "BlobSubtype", u64::from(first)),
        Kind::Bson(fault) => bson_text(alloc, fault),
        Kind::Trailing(count) => with_number(alloc, "Trailing", count),
        Kind::Unknown => name(alloc, "Unknown"),
        Kind::WrongType => name(alloc, "WrongType"),
        Kind::WrongLength(length) => with_number(alloc, "WrongLength", length),
        Kind::Negative => name(alloc, "Negative"),
        Kind::NoEdges => name(alloc, "NoEdges"),
        Kind::TooManyEdges(count) => with_number(alloc, "TooManyEdges", count),
        Kind::ProfileOperator => name(alloc, "ProfileOperator"),
        Kind::Missing => name(alloc, "Missing"),
        Kind::UnknownOp => name(alloc, "UnknownOp"),
        Kind::ReservedName => name(alloc, "ReservedName"),
        Kind::NotInSchema => name(alloc, "NotInSchema"),
        Kind::KindDiffers => name(alloc, "KindDiffers"),
        Kind::KeyDiffers => name(alloc, "KeyDiffers"),
        Kind::ContentionAbove { got, limit } => {
            let text = format!(in alloc; "ContentionAbove {got} {limit}")?;
            Bytes::from_slice(alloc, text.as_bytes())
        }
        Kind::BadLimit(limit) => {
            let text = format!(in alloc; "BadLimit {limit}")?;
            Bytes::from_slice(alloc, text.as_bytes())
        }
    }
}

/// The name of a refusal of an indexed value, and its number behind it.
#[tactic(auto, unfolding(crate::specs::Kinds::indexed_text))]
pub fn indexed_text(alloc: Global, fault: IndexedFault) -> Result<Bytes, NoMemory>
    ensures { IfOk result (λ text. text ≡ indexed_text fault) }
{
    match fault {
        IndexedFault::BlobSubtype(first) => with_number(alloc, "BlobSubtype", u64::from(first)),
        IndexedFault::Short => name(alloc, "Short"),
        IndexedFault::EdgeCountZero => name(alloc, "EdgeCountZero"),
        IndexedFault::LengthWrong => name(alloc, "LengthWrong"),
        IndexedFault::NoMemory => name(alloc, "NoMemory"),
    }
}
