//! Rows, links and documents by the hundred thousand.

ghost use Rattle.std.specs.Prelude.{◌≡◌, ◌<◌};

use crate::work::{Outcome, last_block};
use qe_base::{NoMemory, Steps, Tags, write_at};
use qe_chains::Chains;
use qe_document::Value;
use qe_esc::{Esc, RowKey, RowKind, emu_of};
use qe_store::{Store, Stored, StoredCells, TermSet, TermSets};
use qe_tokens::EscContention;
use std::alloc::Global;
use std::marker::Brand;
use std::sync::ledger::{Blank, Ledger};

// Tokens, each with as many rows.
const TOKENS: u64 = 1000;

// Tags to a document.
const TAGS: u64 = 10;

// 32 bytes of their own for each number.
fn spread(number: u64) -> [u8; 32] {
    let mut bytes = [0; 32];
    write_at(&mut bytes, 0, &number.to_le_bytes());
    write_at(
        &mut bytes,
        8,
        &number.wrapping_mul(6364136223846793005).to_be_bytes(),
    );
    bytes
}

/// So many rows of 1,000 tokens, added and then searched. The answer is the last count.
pub fn rows(alloc: Global, turns: u64) -> Result<Outcome, NoMemory> {
    let mut esc = Esc::new(alloc);
    for token in 0..TOKENS {
        add(
            &mut esc,
            &RowKey::new(&EscContention(spread(token))),
            turns / TOKENS,
        )?;
    }
    let mut count = 0;
    for token in 0..TOKENS {
        let found = emu_of(&esc, &EscContention(spread(token)));
        count = found.count;
    }
    Ok(counted(count))
}

fn add(esc: &mut Esc, key: &RowKey, rows: u64) -> Result<(), NoMemory> {
    for row in 0..rows {
        let id = key.id(RowKind::Position, row.wrapping_add(1));
        esc.reserve(1)?;
        if !esc.has(&id) {
            esc.add_position(id);
        }
    }
    Ok(())
}

/// So many pairs linked, ten to a document, and all unlinked. The answer is the number of nodes.
pub fn links(alloc: Global, turns: u64) -> Result<Outcome, NoMemory> {
    let mut chains = Chains::new(alloc);
    for pair in 0..turns {
        chains.reserve(1)?;
        chains.link(spread(pair), pair / TAGS);
    }
    for document in 0..turns / TAGS {
        unlink(&mut chains, document);
    }
    Ok(counted(chains.nodes() as u64))
}

fn unlink(chains: &mut Chains, document: u64) {
    unlink_on::<Brand>(chains, document, Blank::new(1));
}

fn unlink_on<L: Ledger>(chains: &mut Chains, document: u64, blank: Blank)
    requires name { blank.name ≡ L.name }
    requires parts { blank.parts ≡ L.parts }
    requires some { 0 < L.parts }
{
    chains.unlink_document(document, &mut Steps::<L>::new(blank));
}

/// So many finds of 100 documents among 10^5, each by a tag of its own. The answer is the number of the last find's.
pub fn finds(alloc: Global, turns: u64) -> Result<Outcome, NoMemory> {
    let mut store = Store::new(alloc);
    for document in 0..100_000 {
        insert(&mut store, document_of(alloc, document)?)?;
    }
    let terms = hundred(alloc)?;
    let mut count = 0;
    for _ in 0..turns {
        count = store.matching(&terms)?.len();
    }
    Ok(counted(count as u64))
}

fn document_of(alloc: Global, number: u64) -> Result<Stored, NoMemory> {
    let mut tags = Tags::new(alloc);
    tags.push(spread(number))?;
    Ok(Stored {
        id: Value::Int64((number & 0xffff_ffff) as i64),
        cells: StoredCells::new(alloc),
        tags,
    })
}

fn insert(store: &mut Store, stored: Stored) -> Result<(), NoMemory> {
    store.reserve(1, stored.tags.len())?;
    if store.number_of(&stored.id).is_none() && store.made() < 1_000_000 {
        store.insert(stored);
    }
    Ok(())
}

// One condition of 100 tags, each of one document.
fn hundred(alloc: Global) -> Result<TermSets, NoMemory> {
    let mut tags = Tags::new(alloc);
    for number in 0..100 {
        tags.push(spread(number * 977))?;
    }
    let mut terms = TermSets::new(alloc);
    terms.push(TermSet::Tags(tags))?;
    Ok(terms)
}

fn counted(count: u64) -> Outcome {
    let mut bytes = [0; 16];
    write_at(&mut bytes, 8, &count.to_be_bytes());
    Outcome {
        last: last_block(&bytes),
        bytes: 32,
    }
}
