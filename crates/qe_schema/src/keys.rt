//! Keys: one for each encrypted field, with distinct roots.

ghost use Rattle.std.specs.Prelude.{◌≡◌, ◌<◌, ◌≤◌, ◌↔◌, [], Some, length, slice_get, IfOk, IfSome, IsTrue, bytes_eq};
ghost use Rattle.qe_base.specs.Answers.{Answers};
ghost use Rattle.qe_schema.specs.Faults.{key_refusal};
ghost use Rattle.qe_schema.specs.Keys as spec;

use crate::fault::KeyFault;
use crate::schema::Schema;
use qe_base::{Duplicate, KeyList, Listing, NoMemory, array_at};
use qe_field::encrypted_numbers;
use std::alloc::Global;
use std::marker::Model;

/// The keys of a schema's encrypted fields, in the order of the fields. Contracts see their list.
#[derive(Drop)]
pub struct Keys {
    alloc: Global,
    keys: KeyList,
}

impl Model for Keys {
    ghost use Rattle.std.specs.Prelude.{ℕ, List};

    ghost Value = { List (List ℕ) };

    ghost view = { λ k. k.keys };

    ghost use Rattle.std.specs.List.{AllPairs};
    ghost use Rattle.qe_schema.specs.Keys.{AreApart};

    ghost invariant = { λ k. AllPairs AreApart k.keys };
}

// The root of a key: its last 32 bytes.
fn root_of(key: &[u8; 96]) -> [u8; 32]
    ensures { result ≡ spec.root_of key.now }
{
    array_at(key, 64)
}

// Whether two keys have one root.
fn same_root(one: &[u8; 96], other: &[u8; 96]) -> bool
    ensures { result ≡ bytes_eq (spec.root_of one.now) (spec.root_of other.now) }
{
    root_of(one) == root_of(other)
}

// The place of the first key with the root of a key.
fn place_of_root(keys: &[[u8; 96]], key: &[u8; 96]) -> Option<usize>
    ensures exact { result ≡ spec.root_from 0 key.now keys.now }
    ensures within { IfSome result (λ i. i < length keys.now) }
{
    for (i, other) in keys.iter().enumerate() {
        if same_root(other, key) {
            return Some(i);
        }
    }
    None
}

// The first key whose root stood before.
fn repeated(numbers: &[u32], keys: &[[u8; 96]]) -> Option<KeyFault>
    requires { length numbers.now ≡ length keys.now }
    ensures { result ≡ spec.roots_from numbers.now 0 [] keys.now }
{
    for second in 0..keys.len() {
        if let Some(first) = place_of_root(&keys[..second], &keys[second]) {
            return Some(KeyFault::DuplicateRoot {
                first: numbers[first],
                second: numbers[second],
            });
        }
    }
    None
}

impl Keys {
    /// The keys of a schema's encrypted fields, in the order of the fields.
    pub fn new(alloc: Global, schema: &Schema, keys: KeyList) -> Result<Keys, KeyFault>
        ensures exact { Answers (λ it. it) key_refusal result (spec.keys_of schema.now keys) }
    {
        let numbers = encrypted_numbers(alloc, schema.fields())?;
        if keys.len() != numbers.len() {
            return Err(KeyFault::WrongNumber {
                want: numbers.len() as u64,
                got: keys.len() as u64,
            });
        }
        match repeated(numbers.slice(), keys.slice()) {
            Some(fault) => Err(fault),
            None => Ok(Keys { alloc, keys }),
        }
    }

    /// The number of keys.
    pub fn len(&self) -> usize
        ensures { result ≡ length self.now }
    {
        self.keys.len()
    }

    /// Whether there is no key.
    pub fn is_empty(&self) -> bool
        ensures { IsTrue result ↔ (self.now ≡ []) }
    {
        self.keys.is_empty()
    }

    /// The key of an encrypted field, by its place among them from 0.
    pub fn key(&self, i: usize) -> &[u8; 96]
        requires { i < length self.now }
        ensures { Some result.now ≡ slice_get self.now i }
    {
        &self.keys.slice()[i]
    }
}

impl Duplicate for Keys {
    fn copy(&self) -> Result<Self, NoMemory> {
        let keys = Listing::from_slice(self.alloc, self.keys.slice())?;
        Ok(Keys {
            alloc: self.alloc,
            keys,
        })
    }
}
