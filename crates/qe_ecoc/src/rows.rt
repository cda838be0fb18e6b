//! The list of rows.

ghost use Rattle.std.specs.Prelude.{◌≡◌, ◌+◌, ◌<◌, ◌≤◌, [], ◌∷◌, ◌++◌, length, slice_get, Some, IfOk, OnOk};

use crate::Cipher;
use qe_base::{Duplicate, Listing, NoMemory};
use std::alloc::Global;
use std::marker::Model;
use std::mem;

/// A row.
#[derive(Clone, Copy, Debug, PartialEq, Eq)]
pub struct Entry {
    /// The number of its field.
    pub field: u32,
    /// The cipher of a token under the field's token.
    pub value: Cipher,
}

/// Rows in order.
pub type Entries = Listing<Entry>;

impl Duplicate for Entry {
    fn copy(&self) -> Result<Self, NoMemory> {
        Ok(*self)
    }
}

/// The collection of rows, in the order in which they were added. Contracts see a list, and how many more rows there
/// is room for.
#[derive(Drop)]
pub struct Ecoc {
    alloc: Global,
    rows: Vec<Entry>,
}

impl Model for Ecoc {
    ghost use Rattle.std.specs.Prelude.{◌-◌};
    ghost use Rattle.std.specs.Vec.{vec_len, vec_capacity};
    ghost use Rattle.qe_ecoc.specs.Rows.{Held};

    ghost Value = { Held };

    ghost view = { λ a. record { rows = a.rows.items; spare = vec_capacity a.rows - vec_len a.rows } };
}

impl Ecoc {
    /// No rows.
    pub fn new(alloc: Global) -> Self
        ensures { result.rows ≡ [] }
    {
        Ecoc {
            alloc,
            rows: Vec::new(alloc),
        }
    }

    /// The number of rows.
    pub fn len(&self) -> u64
        ensures { result ≡ length self.now.rows }
    {
        self.rows.len() as u64
    }

    /// Makes room for so many rows more.
    pub fn reserve(&mut self, rows: usize) -> Result<(), NoMemory>
        ensures rows { self.new.rows ≡ self.old.rows }
        ensures room { OnOk result (rows ≤ self.new.spare) }
        ensures kept { self.old.spare ≤ self.new.spare }
    {
        self.rows.reserve(rows)?;
        Ok(())
    }

    /// Adds a row at the end. It takes no memory.
    pub fn add(&mut self, entry: Entry)
        requires { 0 < self.old.spare }
        ensures rows { self.new.rows ≡ self.old.rows ++ entry ∷ [] }
        ensures room { self.old.spare ≤ self.new.spare + 1 }
    {
        match self.rows.push(entry) {
            Ok(()) => {}
            Err(_) => {}
        }
    }

    /// The row at a place, from 0.
    pub fn entry(&self, i: u64) -> &Entry
        requires { i < length self.now.rows }
        ensures { slice_get self.now.rows i ≡ Some result.now }
    {
        &self.rows[i as usize]
    }

    /// Takes all rows out, in order. It takes no memory, and may leave no room.
    pub fn rename_aside(&mut self) -> Entries
        ensures rows { result ≡ self.old.rows }
        ensures empty { self.new.rows ≡ [] }
    {
        let rows = mem::replace(&mut self.rows, Vec::new(self.alloc));
        Entries::from_vec(self.alloc, rows)
    }

    /// Another collection of the same rows.
    pub fn copy(&self) -> Result<Self, NoMemory>
        ensures { IfOk result (λ other. other.rows ≡ self.now.rows) }
    {
        let rows = Vec::from_slice(self.alloc, &self.rows)?;
        Ok(Ecoc {
            alloc: self.alloc,
            rows,
        })
    }
}
