//! How many bytes filters have.

ghost use Rattle.std.specs.Prelude.{◌≡◌, ◌+◌, IfOk, length};
ghost use Rattle.std.specs.Option.{option_copied};
ghost use Rattle.qe_fits.specs.Counts as counts;
ghost use Rattle.qe_fits.specs.Sizes as sizes;

use crate::lengths::{FRAME, element_length, item_length, value_length};
use crate::payloads::{EQUAL, range_length};
use qe_base::NoMemory;
use qe_field::Field;
use qe_plain::Term;
use std::alloc::Global;

// A document of one element.
fn one_element(name: &str, value: u32) -> u32
    ensures { result ≡ counts.capped (sizes.one_element name.now value) }
{
    element_length(name, value).saturating_add(FRAME)
}

fn equal_length(field: Option<&Field>) -> u32
    ensures { result ≡ counts.capped (sizes.equal_term_size (option_copied field.entry)) }
{
    match field {
        None => 0,
        Some(field) => one_element(field.path.as_str(), EQUAL),
    }
}

fn interval_length(alloc: Global, field: Option<&Field>, lo: i64, hi: i64) -> Result<u32, NoMemory>
    ensures { IfOk result (λ count. count ≡ counts.capped (sizes.range_term_size lo hi (option_copied field.entry))) }
{
    match field {
        None => Ok(0),
        Some(field) => {
            let payload = range_length(alloc, &field.kind, lo, hi)?;
            Ok(one_element(field.path.as_str(), payload))
        }
    }
}

fn term_length(alloc: Global, fields: &[Field], term: &Term) -> Result<u32, NoMemory>
    ensures { IfOk result (λ count. count ≡ counts.capped (sizes.term_size fields.now term.now)) }
{
    match term {
        Term::Id(value) => Ok(one_element("_id", value_length(value.value()))),
        Term::Equal { field, .. } => Ok(equal_length(fields.get(*field as usize))),
        Term::Between { field, lo, hi } => {
            interval_length(alloc, fields.get(*field as usize), *lo, *hi)
        }
    }
}

/// The array of a filter's terms.
pub(crate) fn filter_length(
    alloc: Global,
    fields: &[Field],
    terms: &[Term],
) -> Result<u32, NoMemory>
    ensures { IfOk result (λ count. count ≡ counts.capped (sizes.filter_size fields.now terms.now)) }
{
    let mut length = FRAME;
    for (place, term) in terms.iter().enumerate() {
        let next = term_length(alloc, fields, term)?;
        length = length.saturating_add(item_length(place, next));
    }
    Ok(length)
}
