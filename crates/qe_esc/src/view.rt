//! What a search looks at.

ghost use Rattle.std.specs.Prelude.{◌≡◌, ◌+◌};
ghost use Rattle.std.specs.FinMap.{get};
ghost use Rattle.qe_esc.specs.Rows.{Rows};

use crate::Esc;
use qe_base::Steps;
use std::sync::ledger::Ledger;

/// Rows that can be asked for one at a time.
pub trait RowView {
    ghost rows: { Self → Rows };

    /// The row at an identifier; a position is `Some(None)`. It takes one step and no memory.
    fn probe<L: Ledger>(&self, id: &[u8; 32], steps: &mut Steps<L>) -> Option<Option<[u8; 32]>>
        ensures row { result ≡ get (rows self.now) id.now }
        ensures step { steps.new ≡ steps.old + 1 };
}

impl RowView for Esc {
    ghost rows = { λ esc. esc.rows };

    fn probe<L: Ledger>(&self, id: &[u8; 32], steps: &mut Steps<L>) -> Option<Option<[u8; 32]>> {
        steps.tick();
        self.get(id)
    }
}
