//! The parts of an element: each reader takes the bytes that are left of its document, with the document's last byte,
//! and the place `until` behind them.

ghost use Rattle.std.specs.Prelude.{◌≡◌, ◌+◌, ◌-◌, ◌<◌, ◌≤◌, true, false, length, IfOk, IfSome, IfNone, option_map};
ghost use Rattle.std.specs.Str.{is_utf8};
ghost use Rattle.qe_value.specs.declared.fault.BsonFault.TheVariants.{At};
ghost use Rattle.qe_base.specs.Answers.{Answers};
ghost use Rattle.qe_value.specs.Faults.{bson_refusal};
ghost use Rattle.qe_value.specs.Reading.{begins_at, split_zero, name_at, fixed_at, count_at, string_at, binary_at, bool_at, frame_at};

use qe_base::{Bytes, Text};
use qe_value::{BsonFault, BsonKind, ElementType};
use std::alloc::Global;

/// A fault at the first byte that is left.
pub(crate) fn at(until: usize, bytes: &[u8], kind: BsonKind) -> BsonFault
    ensures { result ≡ At (until - length bytes.now) kind }
{
    BsonFault::At {
        place: until.saturating_sub(bytes.len()),
        kind,
    }
}

/// The type of the next element, and what follows its byte, or none at the document's last byte.
pub(crate) fn begins(until: usize, bytes: &[u8]) -> Result<Option<(ElementType, &[u8])>, BsonFault>
    ensures { Answers (λ o. option_map (λ x. (x.0, x.1.now)) o) bson_refusal result (begins_at until bytes.now) }
{
    match bytes {
        [] => Err(at(until, bytes, BsonKind::NoTerminator)),
        [last] => {
            if *last != 0 {
                return Err(at(until, bytes, BsonKind::NoTerminator));
            }
            Ok(None)
        }
        [byte, rest @ ..] => {
            if *byte == 0 {
                return Err(at(until, bytes, BsonKind::LengthWrong));
            }
            match ElementType::of(*byte) {
                None => Err(at(until, bytes, BsonKind::TypeUnknown)),
                Some(kind) => Ok(Some((kind, rest))),
            }
        }
    }
}

/// So many bytes, and what follows them.
#[tactic(auto, unfolding(qe_value::specs::Reading::fixed_at))]
pub(crate) fn fixed<const N: usize>(
    until: usize,
    bytes: &[u8],
) -> Result<([u8; N], &[u8]), BsonFault>
    ensures { Answers (λ x. (x.0, x.1.now)) bson_refusal result (fixed_at N until bytes.now) }
{
    if bytes.len() <= N {
        return Err(at(until, bytes, BsonKind::LengthWrong));
    }
    let (front, rest) = bytes.split_at(N);
    let mut taken = [0u8; N];
    taken.copy_from_slice(front);
    Ok((taken, rest))
}

/// The int32 length of a value, which is at least `least` and counts what stands before the document's last byte.
#[tactic(auto, unfolding(qe_value::specs::Reading::count_at))]
pub(crate) fn count(
    until: usize,
    bytes: &[u8],
    least: usize,
    extra: usize,
) -> Result<(usize, &[u8]), BsonFault>
    requires { extra < 6 }
    ensures exact { Answers (λ x. (x.0, x.1.now)) bson_refusal result (count_at least extra until bytes.now) }
    ensures within { IfOk result (λ x. (least ≤ x.0) × (x.0 + extra < length x.1.now + 4)) }
{
    if bytes.len() <= 4 {
        return Err(at(until, bytes, BsonKind::LengthWrong));
    }
    let (front, rest) = bytes.split_at(4);
    let n = u32::from_le_bytes([front[0], front[1], front[2], front[3]]) as usize;
    if n < least || 1 << 31 <= n || bytes.len() <= n + extra {
        return Err(at(until, bytes, BsonKind::LengthWrong));
    }
    Ok((n, rest))
}

// The text that the bytes are, if they are UTF-8.
fn text_of(bytes: &[u8]) -> Option<&str>
    ensures found { IfSome result (λ text. (text.now ≡ bytes.now) × (is_utf8 bytes.now ≡ true)) }
    ensures none { IfNone result (is_utf8 bytes.now ≡ false) }
{
    match str::from_utf8(bytes) {
        Ok(text) => Some(text),
        Err(_) => None,
    }
}

// What stands before the first 0, and what behind it, where that isn't the last byte.
fn first_zero(bytes: &[u8]) -> Option<(&[u8], &[u8])>
    ensures { option_map (λ s. (s.0.now, s.1.now)) result ≡ split_zero bytes.now }
{
    for (i, b) in bytes.iter().enumerate() {
        if *b == 0 && i + 1 < bytes.len() {
            let (front, rest) = bytes.split_at(i);
            let (_, rest) = rest.split_at(1);
            return Some((front, rest));
        }
    }
    None
}

/// An element's name.
#[tactic(auto, unfolding(qe_value::specs::Reading::name_at))]
pub(crate) fn name(until: usize, bytes: &[u8]) -> Result<(&str, &[u8]), BsonFault>
    ensures { Answers (λ x. (x.0.now, x.1.now)) bson_refusal result (name_at until bytes.now) }
{
    match first_zero(bytes) {
        None => Err(at(until, bytes, BsonKind::NoTerminator)),
        Some((front, rest)) => match text_of(front) {
            None => Err(at(until, bytes, BsonKind::NotUtf8)),
            Some(text) => Ok((text, rest)),
        },
    }
}

/// A string.
#[tactic(auto, unfolding(qe_value::specs::Reading::string_at))]
pub(crate) fn string(alloc: Global, until: usize, bytes: &[u8]) -> Result<(Text, &[u8]), BsonFault>
    ensures { Answers (λ x. (x.0, x.1.now)) bson_refusal result (string_at until bytes.now) }
{
    let (n, rest) = count(until, bytes, 1, 4)?;
    let (front, _) = rest.split_at(n - 1);
    let (_, after) = rest.split_at(n);
    if rest[n - 1] != 0 {
        return Err(at(until, bytes, BsonKind::NoTerminator));
    }
    match text_of(front) {
        None => Err(at(until, bytes, BsonKind::NotUtf8)),
        Some(text) => Ok((Text::of(alloc, text)?, after)),
    }
}

/// The subtype and the bytes of a binary.
#[tactic(auto, unfolding(qe_value::specs::Reading::binary_at))]
pub(crate) fn binary(
    alloc: Global,
    until: usize,
    bytes: &[u8],
) -> Result<(u8, Bytes, &[u8]), BsonFault>
    ensures { Answers (λ x. ((x.0, x.1), x.2.now)) bson_refusal result (binary_at until bytes.now) }
{
    let (n, rest) = count(until, bytes, 0, 5)?;
    let subtype = rest[0];
    let (_, rest) = rest.split_at(1);
    let (front, after) = rest.split_at(n);
    Ok((subtype, Bytes::from_slice(alloc, front)?, after))
}

/// A bool.
#[tactic(auto, unfolding(qe_value::specs::Reading::bool_at))]
pub(crate) fn boolean(until: usize, bytes: &[u8]) -> Result<(bool, &[u8]), BsonFault>
    ensures { Answers (λ x. (x.0, x.1.now)) bson_refusal result (bool_at until bytes.now) }
{
    let (one, rest) = fixed::<1>(until, bytes)?;
    if one[0] > 1 {
        return Err(at(until, bytes, BsonKind::BadBool));
    }
    Ok((one[0] == 1, rest))
}

/// The bytes of an inner document behind its length, and what follows it.
#[tactic(auto, unfolding(qe_value::specs::Reading::frame_at))]
pub(crate) fn frame(until: usize, bytes: &[u8]) -> Result<(&[u8], &[u8]), BsonFault>
    ensures { Answers (λ x. (x.0.now, x.1.now)) bson_refusal result (frame_at until bytes.now) }
{
    let (n, rest) = count(until, bytes, 5, 0)?;
    Ok(rest.split_at(n - 4))
}
