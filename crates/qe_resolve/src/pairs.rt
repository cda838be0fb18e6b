//! Which field's token is sent for which field.

ghost use Rattle.std.specs.Prelude.{◌≡◌, ◌<◌, ◌≤◌, IfOk, length, map};
ghost use Rattle.std.specs.Option.{option_copied};
ghost use Rattle.qe_base.specs.Answers.{Answers};
ghost use Rattle.qe_value.specs.Views.{field_view};
ghost use Rattle.qe_filter.specs.Faults.{plain_refusal};
ghost use Rattle.qe_resolve.specs.Pairs as pairs;
ghost use Rattle.qe_resolve.specs.Slots.{empty_slots, listed_from};

use crate::slots::empty_slots;
use qe_base::{NoMemory, Text};
use qe_field::{Field, encrypted_numbers, text_in};
use qe_filter::{PlainFault, indexed};
use qe_plain::{Pair, Pairs};
use qe_value::{Document, Value};
use std::alloc::Global;

// Each encrypted field with its own token.
fn own_pairs(alloc: Global, fields: &[Field]) -> Result<Pairs, NoMemory>
    requires { length fields.now ≤ 64 }
    ensures { IfOk result (λ it. it ≡ pairs.own_pairs fields.now) }
{
    let numbers = encrypted_numbers(alloc, fields)?;
    let mut own = Pairs::new(alloc);
    for number in numbers.slice() {
        own.push(Pair {
            field: *number,
            sent: *number,
        })?;
    }
    Ok(own)
}

// One name: its field, and the field that its text names.
fn name_pair(
    alloc: Global,
    fields: &[Field],
    element: &(Text, Value),
) -> Result<(u32, u32), PlainFault>
    requires { length fields.now ≤ 64 }
    ensures exact { Answers (λ it. it) plain_refusal result (pairs.name_pair fields.now (field_view element.now)) }
    ensures within { IfOk result (λ named. named.0 < length fields.now) }
{
    let name = element.0.as_str();
    let (field, _) = indexed(alloc, fields, name)?;
    let Some(text) = text_in(&element.1) else {
        return Err(PlainFault::TypeDiffers(Text::of(alloc, name)?));
    };
    let (sent, _) = indexed(alloc, fields, text)?;
    Ok((field, sent))
}

// Each name's pair at its field's place.
fn filled(
    alloc: Global,
    fields: &[Field],
    elements: &[(Text, Value)],
) -> Result<Vec<Option<u32>>, PlainFault>
    requires { length fields.now ≤ 64 }
    ensures exact { Answers (λ it. it.items) plain_refusal result (pairs.pair_slots_from fields.now (empty_slots fields.now) (map field_view elements.now)) }
    ensures count { IfOk result (λ it. length it.items ≡ length fields.now) }
{
    let mut slots = empty_slots(alloc, fields)?;
    for element in elements {
        let (field, sent) = name_pair(alloc, fields, element)?;
        slots[field as usize] = Some(sent);
    }
    Ok(slots)
}

// What stands at the places.
fn listed(alloc: Global, slots: &[Option<u32>]) -> Result<Pairs, NoMemory>
    requires { length slots.now ≤ 64 }
    ensures { IfOk result (λ it. it ≡ listed_from pairs.pair 0 slots.now) }
{
    let mut pairs = Pairs::new(alloc);
    for i in 0..slots.len() {
        if let Some(sent) = slots[i] {
            pairs.push(Pair {
                field: i as u32,
                sent,
            })?;
        }
    }
    Ok(pairs)
}

fn named_pairs(alloc: Global, fields: &[Field], tokens: &Document) -> Result<Pairs, PlainFault>
    requires { length fields.now ≤ 64 }
    ensures { Answers (λ it. it) plain_refusal result (pairs.named_pairs fields.now tokens.now) }
{
    let slots = filled(alloc, fields, tokens.slice())?;
    let pairs = listed(alloc, slots.as_slice())?;
    Ok(pairs)
}

/// The pairs that a begin sends, in rising field number.
pub(crate) fn pairs_of(
    alloc: Global,
    fields: &[Field],
    tokens: Option<&Document>,
) -> Result<Pairs, PlainFault>
    requires { length fields.now ≤ 64 }
    ensures { Answers (λ it. it) plain_refusal result (pairs.pairs_of fields.now (option_copied tokens.entry)) }
{
    match tokens {
        Some(tokens) => named_pairs(alloc, fields, tokens),
        None => Ok(own_pairs(alloc, fields)?),
    }
}
