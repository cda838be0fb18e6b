//! The documents themselves.

ghost use Rattle.std.specs.Prelude.{◌≡◌, ◌≢◌, ◌+◌, ◌^◌, ◌<◌, ◌≤◌, [], ◌∷◌, ◌++◌, length, IfOk, OnOk, IfSome, IfNone, IsSomeAnd, IsTrue, ◌↔◌, vec_len, vec_capacity, true, map, ℕ, bytes_eq};
ghost use Rattle.std.specs.Option.{option_copied};
ghost use Rattle.std.specs.List.{list_any, Contains, All, AllPairs};
ghost use Rattle.std.specs.List.Sorted.{IsStrictlyIncreasing};
ghost use Rattle.std.specs.HashSet.{contains};
ghost use Rattle.qe_store.specs.Kept.{document_at, without, with_new, IsNewId, HasId, IsNumberOf, IsMatch};
ghost use Rattle.qe_store.specs.declared.stored.TermSet.TheVariants.{Tags};
ghost use Rattle.qe_store.specs.Parts.{Rising, MeetsAt, AreThose};

use crate::key::key_of;
use crate::matching::{has_one, rising, set_of, smallest};
use crate::pairing::{link_all, relink_all, unlink_all};
use crate::place::place;
use crate::stored::{Stored, TermSet, TermSets};
use qe_base::{Duplicate, NoMemory, Numbers};
use qe_chains::Chains;
use qe_document::Value;
use std::alloc::Global;
use std::collections::HashSet;
use std::marker::Model;

/// Stored documents, numbered in the order of insertion.
#[derive(Drop)]
pub struct Store {
    alloc: Global,
    documents: Vec<(u64, Stored)>,
    ids: Chains,
    tags: Chains,
    made: u64,
}

impl Model for Store {
    ghost use Rattle.std.specs.Prelude.{◌-◌, length, min, vec_capacity};
    ghost use Rattle.qe_store.specs.Kept.{Kept};
    ghost use Rattle.qe_store.specs.Parts.{Holds};

    ghost Value = { Kept };

    ghost use Rattle.qe_store.specs.contracts.stored.Stored as e;
    ghost use Rattle.std.specs.Coded.{codes};

    ghost coded = { Prim.hlevel (codes, e.the_row.coded) };

    ghost view = { λ a. record { documents = a.documents.items; made = a.made; room = min (vec_capacity a.documents - length a.documents.items) a.ids.room; tag_room = a.tags.room } };

    ghost invariant = { λ a. Holds a.documents.items a.made a.ids.pairs a.tags.pairs };
}

impl Store {
    /// No documents.
    pub fn new(alloc: Global) -> Store
        ensures documents { result.documents ≡ [] }
        ensures made { result.made ≡ 0 }
    {
        Store {
            alloc,
            documents: Vec::new(alloc),
            ids: Chains::new(alloc),
            tags: Chains::new(alloc),
            made: 0,
        }
    }

    /// How many documents were inserted so far, which is the number of the next. All numbers are below it and rise, and
    /// no two documents have one id.
    pub fn made(&self) -> u64
        ensures exact { result ≡ self.now.made }
        ensures below { All (λ d. d.0 < result) self.now.documents }
        ensures rising { IsStrictlyIncreasing (map (λ d. d.0) self.now.documents) }
        ensures distinct { AllPairs (λ a b. a.1.id ≢ b.1.id) self.now.documents }
    {
        self.made
    }

    /// Makes room for so many more documents and tags.
    pub fn reserve(&mut self, documents: usize, tags: usize) -> Result<(), NoMemory>
        ensures documents { self.new.documents ≡ self.old.documents }
        ensures made { self.new.made ≡ self.old.made }
        ensures ok { OnOk result ((documents ≤ self.new.room) × (tags ≤ self.new.tag_room)) }
        ensures room { (self.old.room ≤ self.new.room) × (self.old.tag_room ≤ self.new.tag_room) }
    {
        self.documents.reserve(documents)?;
        self.ids.reserve(documents)?;
        self.tags.reserve(tags)
    }

    /// Adds a document at the end, whose number is what `made` was. Takes no memory.
    pub fn insert(&mut self, stored: Stored)
        requires new { IsNewId stored.id self.old.documents }
        requires room { 0 < self.old.room }
        requires tags { length stored.tags ≤ self.old.tag_room }
        requires made { self.old.made < 2 ^ 63 }
        ensures documents { self.new.documents ≡ self.old.documents ++ (self.old.made, stored) ∷ [] }
        ensures made { self.new.made ≡ self.old.made + 1 }
        ensures room { self.old.room ≤ self.new.room + 1 }
        ensures tag_room { self.old.tag_room ≤ self.new.tag_room + length stored.tags }
    {
        let number = self.made;
        let key = key_of(&stored.id);
        self.ids.link(key, number);
        link_all(&mut self.tags, stored.tags.slice(), number);
        if self.documents.push((number, stored)).is_err() {
            unreachable!();
        }
        self.made = number + 1;
    }

    /// Puts a document with the same id in the place of another. Takes no memory.
    pub fn replace(&mut self, number: u64, stored: Stored)
        requires there { HasId self.old.documents stored.id number }
        requires tags { length stored.tags ≤ self.old.tag_room }
        ensures documents { self.new.documents ≡ with_new number stored self.old.documents }
        ensures made { self.new.made ≡ self.old.made }
        ensures room { self.old.room ≤ self.new.room }
        ensures tag_room { self.old.tag_room ≤ self.new.tag_room + length stored.tags }
    {
        relink_all(&mut self.tags, stored.tags.slice(), number);
        put(&mut self.documents, number, stored);
    }

    /// Takes the document with a number out, if there is one. Takes no memory.
    pub fn remove(&mut self, number: u64)
        ensures documents { self.new.documents ≡ without number self.old.documents }
        ensures made { self.new.made ≡ self.old.made }
        ensures room { (self.old.room ≤ self.new.room) × (self.old.tag_room ≤ self.new.tag_room) }
    {
        unlink_all(&mut self.tags, number);
        unlink_all(&mut self.ids, number);
        take_out(&mut self.documents, number);
    }

    /// The document with a number, if there is one.
    pub fn at(&self, number: u64) -> Option<&Stored>
        ensures exact { option_copied result ≡ document_at number self.now.documents }
    {
        let at = place(&self.documents, number)?;
        Some(&self.documents[at].1)
    }

    /// The number of the document with an id, by type and bytes, if there is one. Takes no memory.
    pub fn number_of(&self, id: &Value) -> Option<u64>
        ensures exact { IsNumberOf self.now.documents id.now result }
    {
        let key = key_of(id);
        let mut links = self.ids.tagged(&key);
        while let Some(link) = links.next() {
            let number = link.1;
            if self.has_id(number, id) {
                return Some(number);
            }
        }
        None
    }

    // Whether the document with a number is there and has an id.
    fn has_id(&self, number: u64, id: &Value) -> bool
        ensures { IsTrue result ↔ HasId self.now.documents id.now number }
    {
        match self.at(number) {
            Some(stored) => stored.id.equals(id),
            None => false,
        }
    }

    /// The numbers of the documents that meet all conditions, in rising order. It goes through the documents that the
    /// smallest condition gives, and through all of them only where there is no condition.
    pub fn matching(&self, terms: &TermSets) -> Result<Numbers, NoMemory>
        ensures rising { IfOk result (λ numbers. IsStrictlyIncreasing numbers) }
        ensures exact { IfOk result (λ numbers. (n : ℕ) → Contains numbers n ↔ IsMatch self.now.documents terms.now n) }
    {
        let numbers = match smallest(terms.slice()) {
            None => numbers_of(self.alloc, &self.documents)?,
            Some(at) => self.meeting_all(terms.slice(), at)?,
        };
        Ok(Numbers::from_vec(self.alloc, rising(numbers)))
    }

    // The numbers of the documents that meet all conditions, out of those that the one at a place gives.
    fn meeting_all(&self, terms: &[TermSet], at: usize) -> Result<Vec<u64>, NoMemory>
        requires { at < length terms.now }
        ensures { IfOk result (λ numbers. (n : ℕ) → Contains numbers.items n ↔ IsMatch self.now.documents terms.now n) }
    {
        let mut numbers = self.candidates(&terms[at])?;
        for term in terms {
            let kept = self.meeting(&numbers, term)?;
            numbers = kept;
        }
        Ok(numbers)
    }

    // Numbers of documents, among them all of those that meet a condition.
    fn candidates(&self, term: &TermSet) -> Result<Vec<u64>, NoMemory>
        ensures { IfOk result (λ numbers. (n : ℕ) → MeetsAt self.now.documents term.now n → Contains numbers.items n) }
    {
        match term {
            TermSet::Id(id) => self.numbered(id),
            TermSet::Tags(tags) => self.tagged(tags.slice()),
        }
    }

    // The number of the document with an id, if there is one.
    fn numbered(&self, id: &Value) -> Result<Vec<u64>, NoMemory>
        ensures { IfOk result (λ numbers. (n : ℕ) → HasId self.now.documents id.now n → Contains numbers.items n) }
    {
        let mut numbers = Vec::new(self.alloc);
        if let Some(number) = self.number_of(id) {
            numbers.push(number)?;
        }
        Ok(numbers)
    }

    // The numbers of the documents with one of some tags.
    fn tagged(&self, tags: &[[u8; 32]]) -> Result<Vec<u64>, NoMemory>
        ensures { IfOk result (λ numbers. (n : ℕ) → MeetsAt self.now.documents (Tags tags.now) n → Contains numbers.items n) }
    {
        let mut numbers = Vec::new(self.alloc);
        for tag in tags {
            let linked = self.tags.with_tag(tag)?;
            numbers.extend_from_slice(linked.slice())?;
        }
        Ok(numbers)
    }

    // Those of some numbers whose documents meet a condition.
    fn meeting(&self, numbers: &[u64], term: &TermSet) -> Result<Vec<u64>, NoMemory>
        ensures { IfOk result (λ kept. AreThose (MeetsAt self.now.documents term.now) numbers.now kept.items) }
    {
        match term {
            TermSet::Id(id) => self.with_id(numbers, id),
            TermSet::Tags(tags) => self.with_one_of(numbers, tags.slice()),
        }
    }

    // Those of some numbers whose documents have an id.
    fn with_id(&self, numbers: &[u64], id: &Value) -> Result<Vec<u64>, NoMemory>
        ensures { IfOk result (λ kept. AreThose (HasId self.now.documents id.now) numbers.now kept.items) }
    {
        let mut kept = Vec::new(self.alloc);
        for number in numbers {
            if self.has_id(*number, id) {
                kept.push(*number)?;
            }
        }
        Ok(kept)
    }

    // Those of some numbers whose documents have one of some tags.
    fn with_one_of(&self, numbers: &[u64], tags: &[[u8; 32]]) -> Result<Vec<u64>, NoMemory>
        ensures { IfOk result (λ kept. AreThose (MeetsAt self.now.documents (Tags tags.now)) numbers.now kept.items) }
    {
        let wanted = set_of(self.alloc, tags)?;
        let mut kept = Vec::new(self.alloc);
        for number in numbers {
            if self.has_one_of(*number, &wanted) {
                kept.push(*number)?;
            }
        }
        Ok(kept)
    }

    // Whether the document with a number is there and has one of some tags.
    fn has_one_of(&self, number: u64, wanted: &HashSet<[u8; 32]>) -> bool
        ensures { IsTrue result ↔ IsSomeAnd (document_at number self.now.documents) (λ stored. list_any (contains bytes_eq wanted.now) stored.tags ≡ true) }
    {
        match self.at(number) {
            Some(stored) => has_one(stored.tags.slice(), wanted),
            None => false,
        }
    }

    /// Another store with the same documents.
    pub fn copy(&self) -> Result<Store, NoMemory>
        ensures documents { IfOk result (λ other. other.documents ≡ self.now.documents) }
        ensures made { IfOk result (λ other. other.made ≡ self.now.made) }
    {
        Ok(Store {
            alloc: self.alloc,
            documents: copy_all(self.alloc, &self.documents)?,
            ids: self.ids.copy()?,
            tags: self.tags.copy()?,
            made: self.made,
        })
    }
}

// Puts a document in the place of the one with its number.
fn put(documents: &mut [(u64, Stored)], number: u64, stored: Stored)
    requires { Rising documents.old }
    ensures { documents.new ≡ with_new number stored documents.old }
{
    if let Some(at) = place(documents, number) {
        documents[at] = (number, stored);
    }
}

// Takes the document with a number out, if there is one.
fn take_out(documents: &mut Vec<(u64, Stored)>, number: u64)
    requires { Rising documents.old.items }
    ensures items { documents.new.items ≡ without number documents.old.items }
    ensures len { vec_len documents.new ≤ vec_len documents.old }
    ensures capacity { vec_capacity documents.new ≡ vec_capacity documents.old }
{
    if let Some(at) = place(documents, number) {
        documents.remove(at);
    }
}

// The numbers of documents.
fn numbers_of(alloc: Global, documents: &[(u64, Stored)]) -> Result<Vec<u64>, NoMemory>
    ensures { IfOk result (λ numbers. numbers.items ≡ map (λ d. d.0) documents.now) }
{
    let mut numbers = Vec::with_capacity(alloc, documents.len())?;
    for document in documents {
        numbers.push(document.0)?;
    }
    Ok(numbers)
}

// The same documents again.
fn copy_all(alloc: Global, documents: &[(u64, Stored)]) -> Result<Vec<(u64, Stored)>, NoMemory>
    ensures { IfOk result (λ others. others.items ≡ documents.now) }
{
    let mut others = Vec::with_capacity(alloc, documents.len())?;
    for (number, stored) in documents {
        others.push((*number, stored.copy()?))?;
    }
    Ok(others)
}
