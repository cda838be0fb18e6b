//! Documents, found by number, by id and by tags.

use qe_base::{Duplicate, NoMemory, Tags};
use qe_document::Value;
use qe_line::{Fault, print_line};
use qe_line_words::{Spaced, SpacedTags, behind, bytes_of, kind_of, number_in, numbers_of};
use qe_store::{Store, Stored, StoredCells, TermSet, TermSets};
use std::alloc::Global;

/// Carries the words of a line out: `i` inserts a document of an id and tags, `r` replaces the tags of a number's
/// document, `x` removes it, `a` prints its tags, `n` the number of an id; `k` and `s` name an id and tags that `m` looks
/// for; `c` goes on with a copy. An id is 0 and an int32, or 1 and an int64.
pub fn print(rt: &HostRuntime, line: &str) -> Result<(), Fault> {
    match line.split_once(' ') {
        Some((_, words)) => print_words(rt, words),
        None => Ok(()),
    }
}

fn print_words(rt: &HostRuntime, words: &str) -> Result<(), Fault> {
    let mut store = Store::new(rt.alloc());
    let mut terms = TermSets::new(rt.alloc());
    for word in words.split(' ') {
        carry_out(rt, &mut store, &mut terms, word)?;
    }
    Ok(())
}

fn carry_out(
    rt: &HostRuntime,
    store: &mut Store,
    terms: &mut TermSets,
    word: &str,
) -> Result<(), Fault> {
    match kind_of(word) {
        "m" => print_matching(rt, store, terms),
        "k" => push_id(terms, numbers_of(word)?),
        "s" => push_tags(rt.alloc(), terms, behind(word, 1)),
        "a" => print_tags(rt, store, numbers_of(word)?),
        "n" => print_number(rt, store, numbers_of(word)?),
        _ => change(rt, store, word),
    }
}

fn change(rt: &HostRuntime, store: &mut Store, word: &str) -> Result<(), Fault> {
    match kind_of(word) {
        "c" => go_on_with_copy(store),
        "i" => print_inserted(rt, store, numbers_of(word)?, behind(word, 3)),
        "r" => print_replaced(rt, store, numbers_of(word)?, behind(word, 2)),
        "x" => remove(store, numbers_of(word)?),
        _ => Err(Fault::Refused),
    }
}

fn go_on_with_copy(store: &mut Store) -> Result<(), Fault> {
    let copy = store.copy()?;
    *store = copy;
    Ok(())
}

fn remove(store: &mut Store, [number]: [u64; 1]) -> Result<(), Fault> {
    store.remove(number);
    Ok(())
}

// What the conditions look for, of which none is left.
fn print_matching(rt: &HostRuntime, store: &Store, terms: &mut TermSets) -> Result<(), Fault> {
    print_found(rt, store, terms)?;
    *terms = TermSets::new(rt.alloc());
    Ok(())
}

fn print_found(rt: &HostRuntime, store: &Store, terms: &TermSets) -> Result<(), Fault> {
    let found = store.matching(terms)?;
    print_line(rt, format_args!("matching{}", Spaced(found.slice())))
}

fn push_id(terms: &mut TermSets, id: [u64; 2]) -> Result<(), Fault> {
    terms.push(TermSet::Id(id_of(id)))?;
    Ok(())
}

fn push_tags(alloc: Global, terms: &mut TermSets, tags: &str) -> Result<(), Fault> {
    terms.push(TermSet::Tags(tags_of(alloc, tags)?))?;
    Ok(())
}

fn print_number(rt: &HostRuntime, store: &Store, id: [u64; 2]) -> Result<(), Fault> {
    match number_of_id(store, id) {
        Some(number) => print_line(rt, format_args!("number {number}")),
        None => print_line(rt, "no number"),
    }
}

fn number_of_id(store: &Store, id: [u64; 2]) -> Option<u64> {
    store.number_of(&id_of(id))
}

fn print_inserted(
    rt: &HostRuntime,
    store: &mut Store,
    id: [u64; 2],
    tags: &str,
) -> Result<(), Fault> {
    let made = store.made();
    let stored = document_of(rt.alloc(), id_of(id), tags)?;
    let is_inserted = insert(store, stored)?;
    print_line(rt, format_args!("insert {made} {is_inserted}"))
}

fn print_replaced(
    rt: &HostRuntime,
    store: &mut Store,
    [number]: [u64; 1],
    tags: &str,
) -> Result<(), Fault> {
    let is_replaced = replace(rt.alloc(), store, number, tags)?;
    print_line(rt, format_args!("replace {is_replaced}"))
}

// The id that two numbers stand for.
fn id_of([kind, number]: [u64; 2]) -> Value {
    match kind {
        0 => Value::Int32((number & 0xffff) as i32),
        _ => Value::Int64((number & 0xffff) as i64),
    }
}

fn tags_of(alloc: Global, numbers: &str) -> Result<Tags, Fault> {
    let mut tags = Tags::new(alloc);
    if numbers.is_empty() {
        return Ok(tags);
    }
    for digits in numbers.split(',') {
        tags.push(bytes_of(number_in(digits)?))?;
    }
    Ok(tags)
}

fn document_of(alloc: Global, id: Value, tags: &str) -> Result<Stored, Fault> {
    Ok(Stored {
        id,
        cells: StoredCells::new(alloc),
        tags: tags_of(alloc, tags)?,
    })
}

// Whether the document was inserted, which it isn't where another has its id.
fn insert(store: &mut Store, stored: Stored) -> Result<bool, NoMemory> {
    store.reserve(1, stored.tags.len())?;
    if store.number_of(&stored.id).is_some() || store.made() > 1_000_000 {
        return Ok(false);
    }
    store.insert(stored);
    Ok(true)
}

// Whether there was a document to replace.
fn replace(alloc: Global, store: &mut Store, number: u64, tags: &str) -> Result<bool, Fault> {
    let tags = tags_of(alloc, tags)?;
    let Some(old) = store.at(number) else {
        return Ok(false);
    };
    let stored = Stored {
        id: old.id.copy()?,
        cells: StoredCells::new(alloc),
        tags,
    };
    store.reserve(0, stored.tags.len())?;
    store.replace(number, stored);
    Ok(true)
}

fn print_tags(rt: &HostRuntime, store: &Store, [number]: [u64; 1]) -> Result<(), Fault> {
    match store.at(number) {
        Some(stored) => print_line(
            rt,
            format_args!("document{}", SpacedTags(stored.tags.slice())),
        ),
        None => print_line(rt, "no document"),
    }
}
