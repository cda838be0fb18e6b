//! The search of a filter: each term's edges, each under all contention factors from 0 to its greatest.

ghost use Rattle.std.specs.Prelude.{◌≡◌, ◌+◌, ◌-◌, ◌^◌, ◌<◌, [], ◌∷◌, ◌++◌, OnOk, IfOk};
ghost use Rattle.qe_protocol.specs.Filters.{tags_upto, search_of, factor_searches, edge_searches};
ghost use Rattle.qe_indexing.specs.Searches.{SearchesMade, TermMade, TermsMade};

use qe_base::{Count, Counts, Duplicate, NoMemory, Tags};
use qe_command::{SentFilter, SentTerm};
use qe_esc::{Esc, emu_of};
use qe_payload::FindEdge;
use qe_seal::HmacKey;
use qe_store::{TermSet, TermSets};
use qe_tokens::{EdcDerived, EdcTwice, EscDerived, edc_contention, edc_twice, esc_contention};
use std::alloc::Global;

/// Adds the document tags 1 to a number.
fn push_tags(key: &EdcTwice, number: u64, tags: &mut Tags) -> Result<(), NoMemory>
    ensures { OnOk result (tags.new ≡ tags.old ++ tags_upto key.now.0 number) }
{
    let mac = HmacKey::new(&key.0);
    for count in 0..number {
        tags.push(mac.prf1(count + 1))?;
    }
    Ok(())
}

/// Searches for an edge under a contention factor: adds what was found, and the tags of the documents.
fn search(
    esc: &Esc,
    edge: &FindEdge,
    factor: u64,
    counts: &mut Counts,
    tags: &mut Tags,
) -> Result<(), NoMemory>
    ensures { OnOk result (SearchesMade esc.now.rows (search_of edge.now factor ∷ []) counts.old tags.old counts.new tags.new) }
{
    let token = esc_contention(&EscDerived(edge.s), factor);
    let key = edc_twice(&edc_contention(&EdcDerived(edge.d), factor));
    let found = emu_of(esc, &token);
    counts.push(Count {
        token: token.0,
        hop: found.hop,
        positions: found.count,
    })?;
    push_tags(&key, found.base.wrapping_add(found.count), tags)
}

/// The same under all contention factors from 0 to the greatest.
fn search_edge(
    esc: &Esc,
    edge: &FindEdge,
    greatest: u64,
    counts: &mut Counts,
    tags: &mut Tags,
) -> Result<(), NoMemory>
    requires { greatest < 2 ^ 64 - 1 }
    ensures { OnOk result (SearchesMade esc.now.rows (factor_searches edge.now 0 (greatest + 1)) counts.old tags.old counts.new tags.new) }
{
    for factor in 0..greatest + 1 {
        search(esc, edge, factor, counts, tags)?;
    }
    Ok(())
}

/// The same of all edges of a term: what a document must have for it.
fn search_edges(
    alloc: Global,
    esc: &Esc,
    edges: &[FindEdge],
    greatest: u64,
    counts: &mut Counts,
) -> Result<Tags, NoMemory>
    requires { greatest < 2 ^ 64 - 1 }
    ensures { IfOk result (SearchesMade esc.now.rows (edge_searches edges.now greatest) counts.old [] counts.new) }
{
    let mut tags = Tags::new(alloc);
    for edge in edges {
        search_edge(esc, edge, greatest, counts, &mut tags)?;
    }
    Ok(tags)
}

/// What a document must have for a term.
fn search_term(
    alloc: Global,
    esc: &Esc,
    term: &SentTerm,
    counts: &mut Counts,
) -> Result<TermSet, NoMemory>
    ensures { IfOk result (TermMade esc.now.rows term.now counts.old counts.new) }
{
    match term {
        SentTerm::Id(id) => Ok(TermSet::Id(id.copy()?)),
        SentTerm::Equal { payload, .. } => {
            let edge = FindEdge {
                d: payload.d,
                s: payload.s,
                l: payload.l,
            };
            Ok(TermSet::Tags(search_edges(alloc, esc, &[edge], payload.cm.unsigned_abs(), counts)?))
        }
        SentTerm::Range { payload, .. } => Ok(TermSet::Tags(search_edges(
            alloc,
            esc,
            payload.g.slice(),
            payload.cm.unsigned_abs(),
            counts,
        )?)),
    }
}

/// What documents must have for the terms of a filter, in their order. Adds what each search found.
pub fn search_filter(
    alloc: Global,
    esc: &Esc,
    filter: &SentFilter,
    counts: &mut Counts,
) -> Result<TermSets, NoMemory>
    ensures { IfOk result (TermsMade esc.now.rows filter.now counts.old counts.new) }
{
    search_terms(alloc, esc, filter.slice(), counts)
}

fn search_terms(
    alloc: Global,
    esc: &Esc,
    terms: &[SentTerm],
    counts: &mut Counts,
) -> Result<TermSets, NoMemory>
    ensures { IfOk result (TermsMade esc.now.rows terms.now counts.old counts.new) }
{
    let mut sets = TermSets::new(alloc);
    for term in terms {
        let set = search_term(alloc, esc, term, counts)?;
        sets.push(set)?;
    }
    Ok(sets)
}
