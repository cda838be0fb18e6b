//! Terms of filters, as they are sent.

ghost use Rattle.std.specs.Prelude.{◌≡◌, ◌<◌, ◌≤◌, ◌^◌, [], map, pos, length, All, IfOk};
ghost use Rattle.qe_value.specs.Views.{plain};
ghost use Rattle.qe_edges.specs.Prefixes.{IsSpelled};
ghost use Rattle.qe_edges.specs.Texts.{text_of};
ghost use Rattle.qe_encodes.specs.Callers.{contention_of as contention_in};
ghost use Rattle.qe_encodes.specs.Fields.{kind_at};
ghost use Rattle.qe_encodes.specs.Items.{cover_in, bytes_of};
ghost use Rattle.qe_encodes.specs.Payloads as sent;
ghost use Rattle.qe_sending.specs.Sendable.{AreLimited, CanSendTerm, CanSendTerms, IsLeaf};

use qe_base::{Duplicate, NoMemory};
use qe_command::{SentFilter, SentTerm};
use qe_document::{Document, Value};
use qe_edges::{Edge, Edges};
use qe_field::FieldKind;
use qe_find::{FindEqual, FindRange};
use qe_keyring::{EncryptedField, Keyring, spelled_bytes};
use qe_parts::{FindEdge, FindEdges};
use qe_plain::Term;
use std::alloc::Global;

/// The contention of a field, as far as a caller has learned it; 0 where there is none.
pub(crate) fn contention_of(contentions: &[u64], field: u32) -> u64
    ensures { result ≡ contention_in contentions.now field }
{
    match contentions.get(field as usize) {
        Some(contention) => *contention,
        None => 0,
    }
}

// A prefix's tokens.
fn find_edge(field: &EncryptedField<'_>, edge: &Edge) -> FindEdge
    requires { edge.now.len ≤ 64 }
    ensures { result ≡ sent.find_tokens field.now.under field.now.number (text_of edge.now) }
{
    let mut text = [0; 64];
    let length = edge.text(&mut text);
    field.find_tokens(&text[..length])
}

// The tokens of prefixes, in their order.
fn find_edges(
    alloc: Global,
    field: &EncryptedField<'_>,
    edges: &[Edge],
) -> Result<FindEdges, NoMemory>
    requires { All IsSpelled edges.now }
    ensures { IfOk result (λ found. found ≡ map (λ edge. sent.find_tokens field.now.under field.now.number (text_of edge)) edges.now) }
{
    let mut found = FindEdges::new(alloc);
    for edge in edges {
        found.push(find_edge(field, edge))?;
    }
    Ok(found)
}

// The cover of an interval of a field of a kind.
fn cover(alloc: Global, kind: &FieldKind, lo: i64, hi: i64) -> Result<Edges, NoMemory>
    ensures cover { IfOk result (λ edges. edges ≡ cover_in kind.now lo hi) }
    ensures spelled { IfOk result (All IsSpelled) }
{
    match kind {
        FieldKind::Range { domain, .. } => domain.cover(alloc, lo, hi),
        _ => Ok(Edges::new(alloc)),
    }
}

// What is sent for a value, for all factors up to a number.
fn equal(
    alloc: Global,
    field: &EncryptedField<'_>,
    value: &Value,
    greatest: u64,
) -> Result<FindEqual, NoMemory>
    requires leaf { IsLeaf (plain value.now) }
    requires small { greatest < 2 ^ 63 }
    ensures { IfOk result (λ payload. payload ≡ sent.equal_payload field.now.under
        (sent.find_tokens field.now.under field.now.number (bytes_of (plain value.now))) greatest) }
{
    let bytes = spelled_bytes(alloc, value)?;
    let FindEdge { d, s, l } = field.find_tokens(bytes.slice());
    Ok(FindEqual {
        d,
        s,
        l,
        cm: greatest as i64,
    })
}

// What is sent for the cover of an interval, for all factors up to a number. The place is the term's in its filter.
fn between(
    alloc: Global,
    field: &EncryptedField<'_>,
    edges: &[Edge],
    greatest: u64,
    place: usize,
) -> Result<FindRange, NoMemory>
    requires spelled { All IsSpelled edges.now }
    requires small { greatest < 2 ^ 63 }
    requires place { place < 2 ^ 31 }
    ensures { IfOk result (λ payload. payload ≡ record {
      g = map (λ edge. sent.find_tokens field.now.under field.now.number (text_of edge)) edges.now;
      cm = pos greatest;
      payload_id = pos place;
      extra = [];
    }) }
{
    let g = find_edges(alloc, field, edges)?;
    Ok(FindRange {
        g,
        cm: greatest as i64,
        payload_id: place as i32,
        extra: Document::new(alloc),
    })
}

// What is sent of the term at a place.
#[tactic(auto, using(qe_command_parts::proofs::ValueLemmas::value_again))]
fn sent_term(
    alloc: Global,
    keyring: &Keyring,
    contentions: &[u64],
    place: usize,
    term: &Term,
) -> Result<SentTerm, NoMemory>
    requires can { CanSendTerm keyring.now.schema term.now }
    requires limited { AreLimited contentions.now }
    requires place { place < 2 ^ 31 }
    ensures { IfOk result (λ it. it ≡ sent.sent_term keyring.now contentions.now place term.now) }
{
    match term {
        Term::Id(id) => Ok(SentTerm::Id(id.value().copy()?)),
        Term::Equal { field, value } => {
            let greatest = contention_of(contentions, *field);
            let payload = equal(alloc, &keyring.encrypted(*field), value.value(), greatest)?;
            Ok(SentTerm::Equal {
                field: *field,
                payload,
            })
        }
        Term::Between { field, lo, hi } => {
            let greatest = contention_of(contentions, *field);
            let edges = cover(alloc, &keyring.kind_at(*field), *lo, *hi)?;
            let found = &keyring.encrypted(*field);
            let payload = between(alloc, found, edges.slice(), greatest, place)?;
            Ok(SentTerm::Range {
                field: *field,
                payload,
            })
        }
    }
}

/// What is sent of a filter's terms, in their order.
pub(crate) fn terms_sent(
    alloc: Global,
    keyring: &Keyring,
    contentions: &[u64],
    terms: &[Term],
) -> Result<SentFilter, NoMemory>
    requires can { CanSendTerms keyring.now.schema terms.now }
    requires limited { AreLimited contentions.now }
    ensures { IfOk result (λ filter. filter ≡ sent.sent_filter keyring.now contentions.now terms.now 0) }
{
    let mut filter = SentFilter::new(alloc);
    for (place, term) in terms.iter().enumerate() {
        filter.push(sent_term(alloc, keyring, contentions, place, term)?)?;
    }
    Ok(filter)
}
