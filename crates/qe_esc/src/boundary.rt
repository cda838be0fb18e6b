//! How far a token's rows of one kind go.

ghost use Rattle.std.specs.Prelude.{◌≡◌, ◌+◌, ◌*◌, ◌^◌, ◌<◌, ◌≤◌};
ghost use Rattle.qe_esc.specs.Identifiers.{row_after};
ghost use Rattle.qe_esc.specs.Boundary.{IsBoundary};
ghost use Rattle.qe_esc.specs.Digits.{digits};

use crate::{RowKey, RowKind, RowView};
use qe_base::Steps;
use std::sync::ledger::Ledger;

/// No row is looked for at this distance or a greater one.
const LIMIT: u64 = 1 << 63;

/// How many rows follow a start, by doubling the distance until a row is missing and then halving the gap.
pub fn hop<V: RowView, L: Ledger>(
    rows: &V,
    key: &RowKey,
    kind: RowKind,
    start: u64,
    steps: &mut Steps<L>,
) -> u64
    ensures boundary { IsBoundary (row_after (V.rows rows.now) kind key.now start) result }
    ensures probes { steps.new ≤ steps.old + (2 * digits result + 2) }
{
    let mut low: u64 = 0;
    let mut high: u64 = 1;
    while high < LIMIT && is_there(rows, key, kind, start, high, steps) {
        low = high;
        high *= 2;
    }
    while high - low > 1 {
        let middle = low + (high - low) / 2;
        if is_there(rows, key, kind, start, middle, steps) {
            low = middle;
        } else {
            high = middle;
        }
    }
    low
}

// Whether the row at a distance behind the start is there. No search looks as far as the limit.
fn is_there<V: RowView, L: Ledger>(
    rows: &V,
    key: &RowKey,
    kind: RowKind,
    start: u64,
    distance: u64,
    steps: &mut Steps<L>,
) -> bool
    requires { distance < 2 ^ 63 }
    ensures there { result ≡ row_after (V.rows rows.now) kind key.now start distance }
    ensures step { steps.new ≡ steps.old + 1 }
{
    rows.probe(&key.id(kind, start.wrapping_add(distance)), steps)
        .is_some()
}
