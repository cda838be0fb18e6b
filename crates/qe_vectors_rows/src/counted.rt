//! Rows that count how often they are asked.

ghost use Rattle.qe_esc.specs.Rows.{Rows};

use qe_base::Steps;
use qe_esc::RowView;
use std::cell::Cell;
use std::sync::ledger::Ledger;

/// Rows, and how many were asked for.
#[derive(Clone, Copy)]
pub struct Counted<'a, V> {
    /// The rows.
    pub rows: &'a V,
    /// How many were asked for.
    pub probes: &'a Cell<u64>,
}

impl<'a, V: RowView> RowView for Counted<'a, V> {
    ghost rows = { λ counted. V.rows counted.rows.now };

    fn probe<L: Ledger>(&self, id: &[u8; 32], steps: &mut Steps<L>) -> Option<Option<[u8; 32]>> {
        self.probes.set(self.probes.get().wrapping_add(1));
        self.rows.probe(id, steps)
    }
}
