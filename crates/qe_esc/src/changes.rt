//! Rows as they will be.

ghost use Rattle.std.specs.Prelude.{◌≡◌, ◌+◌, ◌≤◌, Some, None, OnOk, OnErr};
ghost use Rattle.std.specs.FinMap as map;
ghost use Rattle.qe_esc.specs.Changes.{changed, with_row};

use crate::{Esc, RowView};
use qe_base::{NoMemory, Steps};
use std::alloc::Global;
use std::collections::HashMap;
use std::marker::Model;
use std::sync::ledger::Ledger;

/// What is to become of some identifiers: each gets a row, or loses it.
#[derive(Drop)]
pub struct Changes {
    rows: HashMap<[u8; 32], Option<Option<[u8; 32]>>>,
}

impl Model for Changes {
    ghost use Rattle.std.specs.FinMap.{from_entries};
    ghost use Rattle.std.specs.FinMap.{code};
    ghost use Rattle.std.specs.Coded.{coded_list, coded_option, coded_ℕ};
    ghost use Rattle.qe_esc.specs.Changes.{Waiting};

    ghost Value = { Waiting };

    ghost coded = { code (coded_list coded_ℕ) (coded_option (coded_option (coded_list coded_ℕ))) };

    ghost view = { λ a. from_entries a.rows.entries };
}

impl Changes {
    /// No changes.
    pub fn new(alloc: Global) -> Self
        ensures { result ≡ map.empty }
    {
        Changes {
            rows: HashMap::new(alloc),
        }
    }

    /// The number of identifiers that change.
    pub fn len(&self) -> usize
        ensures { result ≡ map.len self.now }
    {
        self.rows.len()
    }

    /// What is to become of an identifier, if it changes.
    pub fn get(&self, id: &[u8; 32]) -> Option<Option<Option<[u8; 32]>>>
        ensures { result ≡ map.get self.now id.now }
    {
        self.rows.get(id).copied()
    }

    /// The identifier is to have this row, or none.
    pub fn write(&mut self, id: [u8; 32], row: Option<Option<[u8; 32]>>) -> Result<(), NoMemory>
        ensures ok { OnOk result (self.new ≡ map.insert self.old id row) }
        ensures err { OnErr result (self.new ≡ self.old) }
    {
        self.rows.insert(id, row)?;
        Ok(())
    }

    /// Carries all changes out. It takes no memory.
    pub fn apply(&self, esc: &mut Esc)
        requires { map.len self.now ≤ esc.old.spare }
        ensures rows { esc.new.rows ≡ changed esc.old.rows self.now }
        ensures room { esc.old.spare ≤ esc.new.spare + map.len self.now }
    {
        for (id, row) in self.rows.iter() {
            match row {
                Some(value) => esc.put(*id, *value),
                None => esc.remove(id),
            }
        }
    }
}

/// Rows, seen as they will be once the changes are carried out.
#[derive(Clone, Copy)]
pub struct Overlay<'a> {
    /// The rows as they are.
    pub rows: &'a Esc,
    /// What is to become of them.
    pub changes: &'a Changes,
}

impl<'a> Overlay<'a> {
    /// The row at an identifier.
    pub fn get(&self, id: &[u8; 32]) -> Option<Option<[u8; 32]>>
        ensures { result ≡ map.get (changed self.now.rows.now.rows self.now.changes.now) id.now }
    {
        match self.changes.get(id) {
            Some(row) => row,
            None => self.rows.get(id),
        }
    }
}

impl<'a> RowView for Overlay<'a> {
    ghost rows = { λ o. changed o.rows.now.rows o.changes.now };

    fn probe<L: Ledger>(&self, id: &[u8; 32], steps: &mut Steps<L>) -> Option<Option<[u8; 32]>> {
        steps.tick();
        self.get(id)
    }
}

/// Plans a row without a value, unless its identifier will have a row.
pub fn plan_position(rows: &Esc, changes: &mut Changes, id: [u8; 32]) -> Result<(), NoMemory>
    ensures ok { OnOk result (changed rows.now.rows changes.new ≡ with_row (changed rows.now.rows changes.old) id None) }
    ensures err { OnErr result (changes.new ≡ changes.old) }
{
    plan_row(rows, changes, id, None)
}

/// Plans a row with a value, unless its identifier will have a row.
pub fn plan_anchor(
    rows: &Esc,
    changes: &mut Changes,
    id: [u8; 32],
    value: [u8; 32],
) -> Result<(), NoMemory>
    ensures ok { OnOk result (changed rows.now.rows changes.new ≡ with_row (changed rows.now.rows changes.old) id (Some value)) }
    ensures err { OnErr result (changes.new ≡ changes.old) }
{
    plan_row(rows, changes, id, Some(value))
}

// Plans a row, unless its identifier will have one.
fn plan_row(
    rows: &Esc,
    changes: &mut Changes,
    id: [u8; 32],
    value: Option<[u8; 32]>,
) -> Result<(), NoMemory>
    ensures ok { OnOk result (changed rows.now.rows changes.new ≡ with_row (changed rows.now.rows changes.old) id value) }
    ensures err { OnErr result (changes.new ≡ changes.old) }
{
    let overlay = Overlay {
        rows,
        changes: &*changes,
    };
    if overlay.get(&id).is_some() {
        return Ok(());
    }
    changes.write(id, Some(value))
}
