//! The collection of rows.

ghost use Rattle.std.specs.Prelude.{◌≡◌, ℕ, ◌+◌, ◌<◌, ◌≤◌, Option, None, Some, false, IfOk, OnOk, OnErr};
ghost use Rattle.std.specs.FinMap as map;
ghost use Rattle.std.specs.HashMap.{keys, IsUnique};
ghost use Rattle.std.specs.Str.{bytes_eq};
ghost use Rattle.qe_esc.specs.Rows.{has, position_ids};

use qe_base::{Ids, Listing, NoMemory};
use std::alloc::Global;
use std::collections::HashMap;
use std::marker::Model;

/// Rows by identifier. A row has no value (a position) or 32 bytes (an anchor). Contracts see a finite map, and how
/// many more rows there is room for.
#[derive(Drop)]
pub struct Esc {
    alloc: Global,
    rows: HashMap<[u8; 32], Option<[u8; 32]>>,
}

/// Rows with their identifiers.
pub type EscRows = Listing<([u8; 32], Option<[u8; 32]>)>;

impl Model for Esc {
    ghost use Rattle.std.specs.Prelude.{ℕ, refl};
    ghost use Rattle.std.specs.FinMap.{code, from_entries};
    ghost use Rattle.std.specs.HashMap.{spare};
    ghost use Rattle.std.specs.Coded.{code_by, coded×, coded_list, coded_option, coded_ℕ};
    ghost use Rattle.qe_esc.specs.Rows.{Held, Rows};

    ghost Value = { Held };

    ghost coded = { code_by (Rows × ℕ) (coded× (code (coded_list coded_ℕ) (coded_option (coded_list coded_ℕ))) coded_ℕ)
        (λ held. (held.rows, held.spare)) (λ pair. record { rows = pair.0; spare = pair.1 }) (λ _. refl) };

    ghost view = { λ a. record { rows = from_entries a.rows.entries; spare = spare a.rows } };
}

impl Esc {
    /// No rows.
    pub fn new(alloc: Global) -> Self
        ensures { result.rows ≡ map.empty }
    {
        Esc {
            alloc,
            rows: HashMap::new(alloc),
        }
    }

    /// The number of rows.
    pub fn len(&self) -> u64
        ensures { result ≡ map.len self.now.rows }
    {
        self.rows.len() as u64
    }

    /// The row at an identifier.
    pub fn get(&self, id: &[u8; 32]) -> Option<Option<[u8; 32]>>
        ensures { result ≡ map.get self.now.rows id.now }
    {
        self.rows.get(id).copied()
    }

    /// Whether there is a row at an identifier.
    pub fn has(&self, id: &[u8; 32]) -> bool
        ensures { result ≡ has self.now.rows id.now }
    {
        self.get(id).is_some()
    }

    /// Makes room for so many rows more.
    pub fn reserve(&mut self, rows: usize) -> Result<(), NoMemory>
        ensures rows { self.new.rows ≡ self.old.rows }
        ensures room { OnOk result (rows ≤ self.new.spare) }
        ensures kept { self.old.spare ≤ self.new.spare }
    {
        self.rows.reserve(rows)?;
        Ok(())
    }

    // Writes a row, or writes over it.
    pub(crate) fn put(&mut self, id: [u8; 32], value: Option<[u8; 32]>)
        requires { 0 < self.old.spare }
        ensures rows { self.new.rows ≡ map.insert self.old.rows id value }
        ensures room { self.old.spare ≤ self.new.spare + 1 }
    {
        match self.rows.insert(id, value) {
            Ok(_) => {}
            Err(_) => {}
        }
    }

    /// Adds a row without a value, where there is none.
    pub fn add_position(&mut self, id: [u8; 32])
        requires new { has self.old.rows id ≡ false }
        requires room { 0 < self.old.spare }
        ensures rows { self.new.rows ≡ map.insert self.old.rows id None }
        ensures room { self.old.spare ≤ self.new.spare + 1 }
    {
        self.put(id, None);
    }

    /// Adds a row with a value, where there is none.
    pub fn put_anchor(&mut self, id: [u8; 32], value: [u8; 32])
        requires new { has self.old.rows id ≡ false }
        requires room { 0 < self.old.spare }
        ensures rows { self.new.rows ≡ map.insert self.old.rows id (Some value) }
        ensures room { self.old.spare ≤ self.new.spare + 1 }
    {
        self.put(id, Some(value));
    }

    /// Writes the row of a null anchor, or writes over it.
    pub fn put_null(&mut self, id: [u8; 32], value: [u8; 32])
        requires { 0 < self.old.spare }
        ensures rows { self.new.rows ≡ map.insert self.old.rows id (Some value) }
        ensures room { self.old.spare ≤ self.new.spare + 1 }
    {
        self.put(id, Some(value));
    }

    /// Takes a row out, if there is one.
    pub fn remove(&mut self, id: &[u8; 32])
        ensures rows { self.new.rows ≡ map.remove self.old.rows id.now }
        ensures room { self.old.spare ≤ self.new.spare }
    {
        self.rows.remove(id);
    }

    /// The identifiers of rows without a value, in rising order.
    pub fn positions(&self) -> Result<Ids, NoMemory>
        ensures { IfOk result (λ ids. ids ≡ position_ids self.now.rows) }
    {
        let ids = self.rising_ids()?;
        let mut positions = Ids::new(self.alloc);
        for id in &ids {
            if self.get(id) == Some(None) {
                positions.push(*id)?;
            }
        }
        Ok(positions)
    }

    /// All rows, in rising order of their identifiers.
    pub fn rows(&self) -> Result<EscRows, NoMemory>
        ensures { IfOk result (λ rows. rows ≡ map.entries self.now.rows) }
    {
        let ids = self.rising_ids()?;
        let mut rows = EscRows::new(self.alloc);
        for id in &ids {
            if let Some(row) = self.get(id) {
                rows.push((*id, row))?;
            }
        }
        Ok(rows)
    }

    /// Another collection of the same rows.
    pub fn copy(&self) -> Result<Self, NoMemory>
        ensures { IfOk result (λ other. other.rows ≡ self.now.rows) }
    {
        let rows = self.rows.clone()?;
        Ok(Esc {
            alloc: self.alloc,
            rows,
        })
    }

    // All identifiers, in rising order.
    fn rising_ids(&self) -> Result<Vec<[u8; 32]>, NoMemory>
        ensures { IfOk result (λ ids. ids.items ≡ map.keys self.now.rows) }
    {
        let mut ids = ids_of(self.alloc, &self.rows)?;
        ids.sort_unstable();
        Ok(ids)
    }
}

// All identifiers, in the order in which the map keeps them.
fn ids_of(
    alloc: Global,
    rows: &HashMap<[u8; 32], Option<[u8; 32]>>,
) -> Result<Vec<[u8; 32]>, NoMemory>
    ensures keys { IfOk result (λ ids. ids.items ≡ keys rows.now) }
    ensures unique { IsUnique bytes_eq rows.now }
{
    let ids = rows.keys().copied().collect(alloc)?;
    Ok(ids)
}
