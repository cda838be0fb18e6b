//! Pairs of a tag and a document, linked and unlinked.

ghost use Rattle.std.specs.Prelude.{◌≡◌, ◌<◌};

use qe_base::{NoMemory, Steps};
use qe_chains::Chains;
use qe_line::{Fault, print_line};
use qe_line_words::{Spaced, SpacedTags, bytes_of, kind_of, numbers_of};
use std::marker::Brand;
use std::sync::ledger::{Blank, Ledger};

/// Carries the words of a line out: `l` links a tag and a document, `u` unlinks a document, `t` and `d` print the
/// documents of a tag and the tags of a document, `n` the number of nodes, `r` makes rounds of a document with so many
/// tags, and `c` goes on with a copy.
pub fn print(rt: &HostRuntime, line: &str) -> Result<(), Fault> {
    match line.split_once(' ') {
        Some((_, words)) => print_words(rt, words),
        None => Ok(()),
    }
}

fn print_words(rt: &HostRuntime, words: &str) -> Result<(), Fault> {
    let mut chains = Chains::new(rt.alloc());
    for word in words.split(' ') {
        carry_out(rt, &mut chains, word)?;
    }
    Ok(())
}

fn carry_out(rt: &HostRuntime, chains: &mut Chains, word: &str) -> Result<(), Fault> {
    match kind_of(word) {
        "l" => link_both(chains, numbers_of(word)?),
        "u" => print_unlinked(rt, chains, numbers_of(word)?),
        "c" => go_on_with_copy(chains),
        "r" => rounds(chains, numbers_of(word)?),
        _ => print_asked(rt, chains, word),
    }
}

fn print_asked(rt: &HostRuntime, chains: &Chains, word: &str) -> Result<(), Fault> {
    match kind_of(word) {
        "t" => print_documents(rt, chains, numbers_of(word)?),
        "d" => print_tags(rt, chains, numbers_of(word)?),
        "n" => print_line(rt, format_args!("nodes {}", chains.nodes())),
        _ => Err(Fault::Refused),
    }
}

fn go_on_with_copy(chains: &mut Chains) -> Result<(), Fault> {
    let copy = chains.copy()?;
    *chains = copy;
    Ok(())
}

fn link_both(chains: &mut Chains, [tag, document]: [u64; 2]) -> Result<(), Fault> {
    link(chains, tag, document)?;
    Ok(())
}

fn print_documents(rt: &HostRuntime, chains: &Chains, [tag]: [u64; 1]) -> Result<(), Fault> {
    let list = chains.with_tag(&bytes_of(tag))?;
    print_line(rt, format_args!("documents{}", Spaced(list.slice())))
}

fn print_tags(rt: &HostRuntime, chains: &Chains, [document]: [u64; 1]) -> Result<(), Fault> {
    let list = chains.with_document(document)?;
    print_line(rt, format_args!("tags{}", SpacedTags(list.slice())))
}

fn link(chains: &mut Chains, tag: u64, document: u64) -> Result<(), NoMemory> {
    chains.reserve(1)?;
    chains.link(bytes_of(tag), document);
    Ok(())
}

// How many pairs a document had, and has.
fn print_unlinked(
    rt: &HostRuntime,
    chains: &mut Chains,
    [document]: [u64; 1],
) -> Result<(), Fault> {
    let before = pairs_of(chains, document)?;
    unlink(chains, document);
    let after = pairs_of(chains, document)?;
    print_line(rt, format_args!("unlinked {before} {after}"))
}

fn pairs_of(chains: &Chains, document: u64) -> Result<usize, NoMemory> {
    let tags = chains.with_document(document)?;
    Ok(tags.len())
}

fn unlink(chains: &mut Chains, document: u64) {
    unlink_on::<Brand>(chains, document, Blank::new(1));
}

fn unlink_on<L: Ledger>(chains: &mut Chains, document: u64, blank: Blank)
    requires name { blank.name ≡ L.name }
    requires parts { blank.parts ≡ L.parts }
    requires some { 0 < L.parts }
{
    chains.unlink_document(document, &mut Steps::<L>::new(blank));
}

fn rounds(chains: &mut Chains, [rounds, tags]: [u64; 2]) -> Result<(), Fault> {
    for _ in 0..rounds {
        round(chains, tags)?;
    }
    Ok(())
}

// A document linked with so many tags, and unlinked.
fn round(chains: &mut Chains, tags: u64) -> Result<(), NoMemory> {
    for tag in 0..tags {
        link(chains, tag, 1)?;
    }
    unlink(chains, 1);
    Ok(())
}
