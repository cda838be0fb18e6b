//! How many bytes payloads have: those of encrypted values, of equality terms and of intervals.

ghost use Rattle.std.specs.Prelude.{◌≡◌, ◌+◌, IfOk};
ghost use Rattle.std.specs.Option.{option_copied};
ghost use Rattle.qe_edges.specs.Prefixes.{edges_of, cover_of};
ghost use Rattle.qe_edges.specs.Rules.{InDomain};
ghost use Rattle.qe_field.specs.Values.{number_in as number_of};
ghost use Rattle.qe_value.specs.Measures.{value_length as length_of_value};
ghost use Rattle.qe_value.specs.Views.{plain};
ghost use Rattle.qe_fits.specs.Counts as counts;
ghost use Rattle.qe_fits.specs.Sizes as sizes;

use crate::lengths::{FRAME, length_of_items, value_length};
use qe_base::NoMemory;
use qe_edges::Domain;
use qe_field::{FieldKind, number_in};
use qe_value::Value;
use std::alloc::Global;

// The document of an edge: three tokens and `p` of 49 bytes.
const EDGE: u32 = 182;

// The document of a prefix of a cover: three tokens.
const PREFIX: u32 = 125;

// The binary of an insert's payload, beside the sealed value and the edges.
const INSERT: u32 = 293;

// The IV, one block and the MAC of a sealed value.
const SEALED: u32 = 64;

// The type and the name of the element `g`.
const EDGES: u32 = 3;

/// The binary of an equality term's payload.
pub(crate) const EQUAL: u32 = 143;

// The binary of an interval's payload, beside the prefixes.
const RANGE: u32 = 94;

// A sealed value of so many bytes.
fn sealed_length(count: u32) -> u32
    ensures { result ≡ counts.capped (sizes.sealed_size count) }
{
    (count / 16 * 16).saturating_add(SEALED)
}

// The binary of an encrypted value of so many bytes, with so many bytes of edges.
fn insert_length(count: u32, edges: u32) -> u32
    ensures { result ≡ counts.capped (293 + sizes.sealed_size count + edges) }
{
    sealed_length(count)
        .saturating_add(INSERT)
        .saturating_add(edges)
}

// The least value of a domain; that it has digits shows that it holds one.
fn least_of(domain: &Domain) -> i64
    ensures value { result ≡ domain.now.min }
    ensures within { InDomain domain.now result }
{
    let _bits = domain.bits();
    domain.min()
}

// How many edges a number has: all numbers have as many.
fn count_of_edges(alloc: Global, domain: &Domain, number: Option<i64>) -> Result<usize, NoMemory>
    ensures { IfOk result (λ count. count ≡ sizes.count_of_edges domain.now number) }
{
    match number {
        None => Ok(0),
        Some(_) => Ok(domain.edges(alloc, least_of(domain))?.len()),
    }
}

/// What stands in a field of a kind.
pub(crate) fn kept_length(alloc: Global, kind: &FieldKind, value: &Value) -> Result<u32, NoMemory>
    ensures { IfOk result (λ length. length ≡ counts.capped (sizes.kept_size kind.now (plain value.now))) }
{
    let count = value_length(value);
    match kind {
        FieldKind::Plain => Ok(count),
        FieldKind::Equality { .. } => Ok(insert_length(count, 0)),
        FieldKind::Range { domain, .. } => {
            let edges = count_of_edges(alloc, domain, number_in(value))?;
            Ok(insert_length(count, length_of_items(edges, EDGE).saturating_add(EDGES)))
        }
    }
}

// How many prefixes the cover of an interval has.
fn count_of_cover(alloc: Global, kind: &FieldKind, lo: i64, hi: i64) -> Result<usize, NoMemory>
    ensures { IfOk result (λ count. count ≡ sizes.count_of_cover kind.now lo hi) }
{
    match kind {
        FieldKind::Range { domain, .. } => Ok(domain.cover(alloc, lo, hi)?.len()),
        _ => Ok(0),
    }
}

/// The binary of an interval's payload.
pub(crate) fn range_length(
    alloc: Global,
    kind: &FieldKind,
    lo: i64,
    hi: i64,
) -> Result<u32, NoMemory>
    ensures { IfOk result (λ length. length ≡ counts.capped (sizes.binary_size (sizes.range_size (sizes.count_of_cover kind.now lo hi)))) }
{
    let prefixes = count_of_cover(alloc, kind, lo, hi)?;
    Ok(length_of_items(prefixes, PREFIX).saturating_add(RANGE))
}
