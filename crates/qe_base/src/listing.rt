//! Growing lists, which contracts see as plain lists.

ghost use Rattle.std.specs.Prelude.{◌≡◌, [], ◌∷◌, ◌++◌, length, IfOk, OnOk, OnErr, IsTrue, ◌↔◌};

use crate::{NoMemory, Text};
use std::alloc::Global;
use std::marker::Model;

/// What can be copied, where memory allows.
pub trait Duplicate: Drop {
    /// Another value, equal to this one.
    fn copy(&self) -> Result<Self, NoMemory>
    where
        Self: Sized,
        ensures { IfOk result (λ other. other ≡ self.now) };
}

/// A growing list of items. Contracts see the plain list.
#[derive(Drop)]
pub struct Listing<T> {
    alloc: Global,
    items: Vec<T>,
}

/// Bytes.
pub type Bytes = Listing<u8>;

/// Identifiers of rows, 32 bytes each.
pub type Ids = Listing<[u8; 32]>;

/// Tags of documents, 32 bytes each.
pub type Tags = Listing<[u8; 32]>;

/// Random words of the client, 16 bytes each.
pub type Nonces = Listing<[u8; 16]>;

/// Data keys, 96 bytes each.
pub type KeyList = Listing<[u8; 96]>;

/// Numbers.
pub type Numbers = Listing<u64>;

/// Texts.
pub type Texts = Listing<Text>;

impl<T> Model for Listing<T> {
    ghost use Rattle.std.specs.Prelude.{List};
    ghost use Rattle.std.specs.Coded.{coded_list};

    ghost Value = { List T };

    ghost coded = { coded_list T.code };

    ghost view = { λ it. it.items.items };
}

impl<T> Listing<T> {
    /// The empty list.
    pub fn new(alloc: Global) -> Self
        ensures { result ≡ [] }
    {
        Listing {
            alloc,
            items: Vec::new(alloc),
        }
    }

    /// The items of a vector.
    pub fn from_vec(alloc: Global, items: Vec<T>) -> Self
        ensures { result ≡ items.items }
    {
        Listing { alloc, items }
    }

    /// The items as a vector.
    pub fn into_vec(self) -> Vec<T>
        ensures { result.items ≡ self }
    {
        self.items
    }

    /// The items.
    pub fn slice(&self) -> &[T]
        ensures { result.now ≡ self.now }
    {
        self.items.as_slice()
    }

    /// The number of items.
    pub fn len(&self) -> usize
        ensures { result ≡ length self.now }
    {
        self.items.len()
    }

    /// Whether there is no item.
    pub fn is_empty(&self) -> bool
        ensures { IsTrue result ↔ (self.now ≡ []) }
    {
        self.items.is_empty()
    }
}

impl<T: Drop> Listing<T> {
    /// Adds an item at the end.
    pub fn push(&mut self, item: T) -> Result<(), NoMemory>
        ensures ok { OnOk result (self.new ≡ self.old ++ item ∷ []) }
        ensures err { OnErr result (self.new ≡ self.old) }
    {
        self.items.push(item)?;
        Ok(())
    }
}

impl<T: Copy> Listing<T> {
    /// The items of a slice.
    pub fn from_slice(alloc: Global, items: &[T]) -> Result<Self, NoMemory>
        ensures { IfOk result (λ list. list ≡ items.now) }
    {
        let items = Vec::from_slice(alloc, items)?;
        Ok(Listing { alloc, items })
    }

    /// Adds the items of a slice at the end.
    pub fn extend(&mut self, items: &[T]) -> Result<(), NoMemory>
        ensures ok { OnOk result (self.new ≡ self.old ++ items.now) }
        ensures err { OnErr result (self.new ≡ self.old) }
    {
        self.items.extend_from_slice(items)?;
        Ok(())
    }
}

impl Duplicate for u8 {
    fn copy(&self) -> Result<Self, NoMemory> {
        Ok(*self)
    }
}

impl Duplicate for u64 {
    fn copy(&self) -> Result<Self, NoMemory> {
        Ok(*self)
    }
}

impl Duplicate for [u8; 16] {
    fn copy(&self) -> Result<Self, NoMemory> {
        Ok(*self)
    }
}

impl Duplicate for [u8; 32] {
    fn copy(&self) -> Result<Self, NoMemory> {
        Ok(*self)
    }
}

impl Duplicate for [u8; 96] {
    fn copy(&self) -> Result<Self, NoMemory> {
        Ok(*self)
    }
}

impl<T: Duplicate> Duplicate for Option<T> {
    fn copy(&self) -> Result<Self, NoMemory> {
        match self {
            Some(value) => Ok(Some(value.copy()?)),
            None => Ok(None),
        }
    }
}

impl<S: Duplicate, T: Duplicate> Duplicate for (S, T) {
    fn copy(&self) -> Result<Self, NoMemory> {
        let first = self.0.copy()?;
        Ok((first, self.1.copy()?))
    }
}

impl<T: Duplicate> Duplicate for Listing<T> {
    fn copy(&self) -> Result<Self, NoMemory> {
        let mut other = Listing::new(self.alloc);
        for item in &self.items {
            let copied = item.copy()?;
            other.push(copied)?;
        }
        Ok(other)
    }
}
