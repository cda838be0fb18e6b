//! Reading documents.

ghost use Rattle.std.specs.Prelude.{◌≡◌, ◌≢◌, ℕ, ◌+◌, ◌-◌, ◌≤◌, ◌<◌, [], ◌∷◌, ◌++◌, List, length, map, take, drop, option_map, Ok, bytes_eq, decimal, false, IfOk, IfSome};
ghost use Rattle.qe_value.specs.Names.{is_named};
ghost use Rattle.qe_document.specs.NameSet.{Knows};
ghost use Rattle.qe_base.specs.Answers.{Answers};
ghost use Rattle.qe_encode.specs.Writing.{encoded, value_encoded};
ghost use Rattle.qe_value.specs.Faults.{bson_refusal};
ghost use Rattle.qe_value.specs.Limits.{most_bytes};
ghost use Rattle.qe_value.specs.Reading.{value_at, field_at, item_at, all_at, fields_in, items_in, length_at, document_at, typed_alone, alone_at};
ghost use Rattle.qe_value.specs.Spelling.{Begins, IsAlone};
ghost use Rattle.qe_value.specs.Views.{plain, field_view, taken_value, taken_field};
ghost use Rattle.qe_value.specs.declared.element_type.ElementType.TheVariants.{Doc, Array};
ghost use Rattle.qe_value.specs.declared.value.Plain.{Plain};

use crate::element::{at, begins, binary, boolean, fixed, frame, name, string};
use crate::names::is_new;
use itoa::Buffer;
use qe_base::Text;
use qe_value::{
    BsonFault, BsonKind, Document, ElementType, MOST_BYTES, MOST_LEVELS, Value, Values,
};
use std::alloc::Global;
use std::collections::BTreeSet;

// A value that holds no other.
fn leaf(
    alloc: Global,
    kind: ElementType,
    until: usize,
    bytes: &[u8],
    room: u32,
) -> Result<(Value, &[u8]), BsonFault>
    requires document { kind ≢ Doc }
    requires array { kind ≢ Array }
    ensures { Answers taken_value bson_refusal result (value_at room kind until bytes.now) }
{
    match kind {
        ElementType::Double => {
            let (double, rest) = fixed::<8>(until, bytes)?;
            Ok((Value::Double(double), rest))
        }
        ElementType::Str => {
            let (text, rest) = string(alloc, until, bytes)?;
            Ok((Value::Str(text), rest))
        }
        ElementType::Binary => {
            let (subtype, bytes, rest) = binary(alloc, until, bytes)?;
            Ok((Value::Binary { subtype, bytes }, rest))
        }
        ElementType::ObjectId => {
            let (id, rest) = fixed::<12>(until, bytes)?;
            Ok((Value::ObjectId(id), rest))
        }
        ElementType::Bool => {
            let (b, rest) = boolean(until, bytes)?;
            Ok((Value::Bool(b), rest))
        }
        ElementType::Date => {
            let (date, rest) = fixed::<8>(until, bytes)?;
            Ok((Value::Date(i64::from_le_bytes(date)), rest))
        }
        ElementType::Null => Ok((Value::Null, bytes)),
        ElementType::Int32 => {
            let (n, rest) = fixed::<4>(until, bytes)?;
            Ok((Value::Int32(i32::from_le_bytes(n)), rest))
        }
        ElementType::Timestamp => {
            let (n, rest) = fixed::<8>(until, bytes)?;
            Ok((Value::Timestamp(u64::from_le_bytes(n)), rest))
        }
        ElementType::Int64 => {
            let (n, rest) = fixed::<8>(until, bytes)?;
            Ok((Value::Int64(i64::from_le_bytes(n)), rest))
        }
        ElementType::Decimal => {
            let (decimal, rest) = fixed::<16>(until, bytes)?;
            Ok((Value::Decimal(decimal), rest))
        }
        ElementType::Doc | ElementType::Array => unreachable!(),
    }
}

// A value of this type, where so many levels are left for the documents that it holds.
#[cycle(read)]
fn value_of(
    alloc: Global,
    kind: ElementType,
    until: usize,
    bytes: &[u8],
    room: u32,
) -> Result<(Value, &[u8]), BsonFault>
    ensures { Answers taken_value bson_refusal result (value_at room kind until bytes.now) }
{
    match kind {
        ElementType::Doc => {
            let (inside, rest) = frame(until, bytes)?;
            let document = document_of(alloc, until.saturating_sub(rest.len()), inside, room)?;
            Ok((Value::Doc(document), rest))
        }
        ElementType::Array => {
            let (inside, rest) = frame(until, bytes)?;
            let items = array_of(alloc, until.saturating_sub(rest.len()), inside, room)?;
            Ok((Value::Array(items), rest))
        }
        _ => leaf(alloc, kind, until, bytes, room),
    }
}

#[cycle(read)]
#[tactic(auto, unfolding(qe_value::specs::Reading::fields_in))]
fn document_of(alloc: Global, until: usize, bytes: &[u8], room: u32) -> Result<Document, BsonFault>
    ensures { Answers (λ d. d) bson_refusal result (fields_in room until bytes.now) }
{
    if room == 0 {
        return Err(BsonFault::At {
            place: until.saturating_sub(bytes.len()).saturating_sub(4),
            kind: BsonKind::TooDeep,
        });
    }
    fields_of(alloc, until, bytes, room - 1)
}

#[cycle(read)]
#[tactic(auto, unfolding(qe_value::specs::Reading::items_in))]
fn array_of(alloc: Global, until: usize, bytes: &[u8], room: u32) -> Result<Values, BsonFault>
    ensures { Answers (λ vs. vs) bson_refusal result (items_in room until bytes.now) }
{
    if room == 0 {
        return Err(BsonFault::At {
            place: until.saturating_sub(bytes.len()).saturating_sub(4),
            kind: BsonKind::TooDeep,
        });
    }
    items_of(alloc, until, bytes, room - 1)
}

// All fields to the document's end. There are fewer of them than bytes.
#[cycle(read)]
fn fields_of(alloc: Global, until: usize, bytes: &[u8], room: u32) -> Result<Document, BsonFault>
    ensures { Answers (λ d. d) bson_refusal result (all_at (field_at (value_at room)) (length bytes.now) [] until bytes.now) }
{
    let mut fields = Vec::new(alloc);
    let mut seen = BTreeSet::new(alloc);
    let mut rest = bytes;
    for _ in 0..bytes.len() {
        match field_of(alloc, &fields, &mut seen, until, rest, room)? {
            None => return Ok(Document::from_fields(fields)),
            Some((field, after)) => {
                fields.push(field)?;
                rest = after;
            }
        }
    }
    Err(BsonFault::At {
        place: until,
        kind: BsonKind::NoTerminator,
    })
}

// All items to the array's end. There are fewer of them than bytes.
#[cycle(read)]
fn items_of(alloc: Global, until: usize, bytes: &[u8], room: u32) -> Result<Values, BsonFault>
    ensures { Answers (λ vs. vs) bson_refusal result (all_at (item_at (value_at room)) (length bytes.now) [] until bytes.now) }
{
    let mut items = Values::new(alloc);
    let mut rest = bytes;
    for _ in 0..bytes.len() {
        match item_of(alloc, items.len(), until, rest, room)? {
            None => return Ok(items),
            Some((item, after)) => {
                items.push(item)?;
                rest = after;
            }
        }
    }
    Err(BsonFault::At {
        place: until,
        kind: BsonKind::NoTerminator,
    })
}

// The next field of a document that has these before it.
#[cycle(read)]
#[tactic(auto, unfolding(qe_value::specs::Reading::field_at))]
fn field_of<'a>(
    alloc: Global,
    before: &[(Text, Value)],
    seen: &mut BTreeSet<&'a str>,
    until: usize,
    bytes: &'a [u8],
    room: u32,
) -> Result<Option<((Text, Value), &'a [u8])>, BsonFault>
    requires { Knows seen.old (drop 16 (map field_view before.now)) }
    ensures exact { Answers (λ o. option_map taken_field o) bson_refusal result (field_at (value_at room) (map field_view before.now) until bytes.now) }
    ensures new { IfOk result (λ o. IfSome o (λ x. is_named x.0.0 (map field_view before.now) ≡ false)) }
    ensures knows { IfOk result (λ o. IfSome o (λ x. Knows seen.new (drop 16 (map field_view before.now ++ field_view x.0 ∷ [])))) }
{
    match begins(until, bytes)? {
        None => Ok(None),
        Some((kind, after)) => {
            let (name, rest) = name(until, after)?;
            if !is_new(before, seen, name)? {
                return Err(at(until, after, BsonKind::DuplicateName));
            }
            let (value, rest) = value_of(alloc, kind, until, rest, room)?;
            Ok(Some(((Text::of(alloc, name)?, value), rest)))
        }
    }
}

// The next item of an array that has so many before it.
#[cycle(read)]
#[tactic(auto, unfolding(qe_value::specs::Reading::item_at))]
fn item_of(
    alloc: Global,
    count: usize,
    until: usize,
    bytes: &[u8],
    room: u32,
) -> Result<Option<(Value, &[u8])>, BsonFault>
    ensures { (before : List Plain) → length before ≡ count → Answers (λ o. option_map taken_value o) bson_refusal result (item_at (value_at room) before until bytes.now) }
{
    match begins(until, bytes)? {
        None => Ok(None),
        Some((kind, after)) => {
            let (name, rest) = name(until, after)?;
            if !is_index(name, count) {
                return Err(at(until, after, BsonKind::ArrayKey));
            }
            let (value, rest) = value_of(alloc, kind, until, rest, room)?;
            Ok(Some((value, rest)))
        }
    }
}

// Whether the name is the number in decimal.
fn is_index(name: &str, n: usize) -> bool
    ensures { result ≡ bytes_eq name.now (decimal n) }
{
    let mut buffer = Buffer::new();
    name == buffer.format(n)
}

// The outermost document's length.
#[tactic(auto, unfolding(qe_value::specs::Reading::length_at))]
fn outer_length(bytes: &[u8]) -> Result<usize, BsonFault>
    ensures exact { Answers (λ n. n) bson_refusal result (length_at bytes.now) }
    ensures within { IfOk result (λ n. (5 ≤ n) × (n ≤ length bytes.now)) }
{
    if bytes.len() < 4 {
        return Err(BsonFault::At {
            place: bytes.len(),
            kind: BsonKind::Short,
        });
    }
    let (front, _) = bytes.split_at(4);
    let n = u32::from_le_bytes([front[0], front[1], front[2], front[3]]) as usize;
    if n < 5 || 1 << 31 <= n {
        return Err(BsonFault::At {
            place: 0,
            kind: BsonKind::LengthWrong,
        });
    }
    if n > MOST_BYTES {
        return Err(BsonFault::At {
            place: 0,
            kind: BsonKind::TooLong,
        });
    }
    if bytes.len() < n {
        return Err(BsonFault::At {
            place: bytes.len(),
            kind: BsonKind::Short,
        });
    }
    Ok(n)
}

// The document that begins the bytes, and its length.
#[tactic(auto, unfolding(qe_value::specs::Reading::document_at))]
fn document(alloc: Global, bytes: &[u8]) -> Result<(Document, usize), BsonFault>
    ensures { Answers (λ x. x) bson_refusal result (document_at bytes.now) }
{
    let n = outer_length(bytes)?;
    let (_, rest) = bytes.split_at(4);
    let (inside, _) = rest.split_at(n - 4);
    let document = document_of(alloc, n, inside, MOST_LEVELS)?;
    Ok((document, n))
}

/// The document that begins the bytes, and how many of them it takes. A fault is the first from the left; its place
/// is the number of bytes before it.
pub fn decode(alloc: Global, bytes: &[u8]) -> Result<(Document, usize), BsonFault>
    // What is read is spelled so by the first bytes.
    ensures found { IfOk result (λ x. Begins bytes.now x.0 x.1) }
    // What is spelled so is read, unless memory runs out.
    ensures only { (fields : List (List ℕ × Plain)) (n : ℕ) → Begins bytes.now fields n → Answers (λ x. x) bson_refusal result (Ok (fields, n)) }
    // Which fault it is.
    ensures exact { Answers (λ x. x) bson_refusal result (document_at bytes.now) }
    // What is read is written as the bytes that it was read of.
    ensures again { IfOk result (λ x. encoded x.0 ≡ Ok (take x.1 bytes.now)) }
{
    document(alloc, bytes)
}

// The value that is all that stands before the last byte.
#[tactic(auto, unfolding(qe_value::specs::Reading::typed_alone))]
fn value_alone(alloc: Global, kind: ElementType, bytes: &[u8]) -> Result<Value, BsonFault>
    ensures { Answers plain bson_refusal result (typed_alone kind bytes.now) }
{
    let mut whole = Vec::from_slice(alloc, bytes)?;
    whole.push(0)?;
    let until = whole.len();
    let (value, rest) = value_of(alloc, kind, until, &whole, MOST_LEVELS - 1)?;
    if rest.len() != 1 {
        return Err(at(until, rest, BsonKind::LengthWrong));
    }
    Ok(value)
}

fn typed(alloc: Global, kind: u8, bytes: &[u8]) -> Result<Value, BsonFault>
    ensures { Answers plain bson_refusal result (alone_at kind bytes.now) }
{
    match ElementType::of(kind) {
        None => Err(BsonFault::At {
            place: 0,
            kind: BsonKind::TypeUnknown,
        }),
        Some(kind) => value_alone(alloc, kind, bytes),
    }
}

/// The value of a type that the bytes spell, all of the bytes, as they stand behind an element's name. Places count
/// from the first of them.
pub fn value_from(alloc: Global, kind: u8, bytes: &[u8]) -> Result<Value, BsonFault>
    // What is read is spelled so.
    ensures found { IfOk result (λ v. IsAlone kind bytes.now (plain v)) }
    // What is spelled so is read, unless memory runs out.
    ensures only { (v : Plain) → IsAlone kind bytes.now v → Answers plain bson_refusal result (Ok v) }
    // Which fault it is.
    ensures exact { Answers plain bson_refusal result (alone_at kind bytes.now) }
    // What is read is written as these bytes, where they aren't too long for a document.
    ensures again { IfOk result (λ v. length bytes.now + 7 ≤ most_bytes → value_encoded (plain v) ≡ Ok bytes.now) }
{
    typed(alloc, kind, bytes)
}
