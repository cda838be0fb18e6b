//! Items of values and of terms, as bytes.

ghost use Rattle.std.specs.Prelude.{◌≡◌, ◌≤◌, ◌∷◌, [], map, true, All, IfOk};
ghost use Rattle.qe_value.specs.Views.{plain};
ghost use Rattle.qe_edges.specs.Prefixes.{IsSpelled};
ghost use Rattle.qe_edges.specs.Texts.{text_of};
ghost use Rattle.qe_field.specs.Values.{lies_in, number_in as number_of};
ghost use Rattle.qe_encodes.specs.Items as spec;
ghost use Rattle.qe_sending.specs.Sendable.{CanSendTerm, CanSendValue};

use qe_base::{Bytes, Listing, NoMemory};
use qe_document::Value;
use qe_edges::{Domain, Edge};
use qe_field::{FieldKind, number_in};
use qe_keyring::{Keyring, spelled_bytes};
use qe_plain::Term;
use std::alloc::Global;

/// Items, each as bytes.
pub(crate) type Items = Listing<Bytes>;

// The text of an edge.
fn edge_text(alloc: Global, edge: &Edge) -> Result<Bytes, NoMemory>
    requires { edge.now.len ≤ 64 }
    ensures { IfOk result (λ bytes. bytes ≡ text_of edge.now) }
{
    let mut text = [0; 64];
    let length = edge.text(&mut text);
    Bytes::from_slice(alloc, &text[..length])
}

// The texts of edges, in their order.
fn edge_texts(alloc: Global, edges: &[Edge]) -> Result<Items, NoMemory>
    requires { All IsSpelled edges.now }
    ensures { IfOk result (λ texts. texts ≡ map text_of edges.now) }
{
    let mut texts = Items::new(alloc);
    for edge in edges {
        texts.push(edge_text(alloc, edge)?)?;
    }
    Ok(texts)
}

// One item.
fn one(alloc: Global, item: Bytes) -> Result<Items, NoMemory>
    ensures { IfOk result (λ items. items ≡ item ∷ []) }
{
    let mut items = Items::new(alloc);
    items.push(item)?;
    Ok(items)
}

// The texts of a value's edges.
fn ranged(alloc: Global, domain: &Domain, value: &Value) -> Result<Items, NoMemory>
    requires { lies_in domain.now.min domain.now.max (number_of (plain value.now)) ≡ true }
    ensures { IfOk result (λ texts. texts ≡ map text_of (spec.value_edges domain.now (plain value.now))) }
{
    match number_in(value) {
        Some(number) => edge_texts(alloc, domain.edges(alloc, number)?.slice()),
        None => Ok(Items::new(alloc)),
    }
}

/// What is indexed of a value of a field that is kept so: its bytes, or the texts of its edges.
pub(crate) fn value_items(alloc: Global, kind: &FieldKind, value: &Value) -> Result<Items, NoMemory>
    requires { CanSendValue kind.now (plain value.now) }
    ensures { IfOk result (λ items. items ≡ spec.value_items kind.now (plain value.now)) }
{
    match kind {
        FieldKind::Plain => Ok(Items::new(alloc)),
        FieldKind::Equality { .. } => one(alloc, spelled_bytes(alloc, value)?),
        FieldKind::Range { domain, .. } => ranged(alloc, domain, value),
    }
}

// The texts of the cover of an interval, of a field that is kept so.
fn covered(alloc: Global, kind: &FieldKind, lo: i64, hi: i64) -> Result<Items, NoMemory>
    ensures { IfOk result (λ texts. texts ≡ map text_of (spec.cover_in kind.now lo hi)) }
{
    match kind {
        FieldKind::Range { domain, .. } => {
            edge_texts(alloc, domain.cover(alloc, lo, hi)?.slice())
        }
        _ => Ok(Items::new(alloc)),
    }
}

/// What a term looks for: a value's bytes, or the texts of an interval's cover; an id has no items.
pub(crate) fn term_items(alloc: Global, keyring: &Keyring, term: &Term) -> Result<Items, NoMemory>
    requires { CanSendTerm keyring.now.schema term.now }
    ensures { IfOk result (λ items. items ≡ spec.term_items keyring.now.schema term.now) }
{
    match term {
        Term::Id(_) => Ok(Items::new(alloc)),
        Term::Equal { value, .. } => one(alloc, spelled_bytes(alloc, value.value())?),
        Term::Between { field, lo, hi } => covered(alloc, &keyring.kind_at(*field), *lo, *hi),
    }
}
