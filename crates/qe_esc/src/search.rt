//! The search of a token.

ghost use Rattle.std.specs.Prelude.{◌≡◌, ◌+◌, ◌*◌, ◌<◌, ◌≤◌};
ghost use Rattle.std.specs.FinMap.{get};
ghost use Rattle.qe_esc.specs.Rows.{has};
ghost use Rattle.qe_esc.specs.Identifiers.{id_of};
ghost use Rattle.qe_esc.specs.Pairs.{pair_of, base_behind};
ghost use Rattle.qe_esc.specs.declared.key.RowKind.TheVariants.{Anchor};
ghost use Rattle.qe_esc.specs.Digits.{digits};
ghost use Rattle.qe_esc.specs.Found.{IsFound};

use crate::boundary::hop;
use crate::{Emu, RowKey, RowKind, RowView};
use qe_base::Steps;
use qe_tokens::EscContention;
use std::marker::Brand;
use std::sync::ledger::{Blank, Ledger};

/// Finds the ends of a token's rows. It takes no memory, and a step for each row that it looks for.
pub fn emu<V: RowView, L: Ledger>(rows: &V, token: &EscContention, steps: &mut Steps<L>) -> Emu
    ensures found { IsFound (V.rows rows.now) token.now.0 result }
    ensures probes { steps.new ≤ steps.old + (2 * digits result.hop + 2 * digits result.count + 6) }
{
    let key = RowKey::new(token);
    let null = anchor_at(rows, &key, 0, steps);
    let anchors = hop(rows, &key, RowKind::Anchor, null.pair.0, steps);
    let base = base_behind(rows, &key, null.pair, anchors, steps);
    let count = hop(rows, &key, RowKind::Position, base, steps);
    Emu {
        has_null: null.there,
        null_apos: null.pair.0,
        null_cpos: null.pair.1,
        hop: anchors,
        base,
        count,
    }
}

/// `emu` for who counts no steps.
pub fn emu_of<V: RowView>(rows: &V, token: &EscContention) -> Emu
    ensures { IsFound (V.rows rows.now) token.now.0 result }
{
    emu_on::<V, Brand>(rows, token, Blank::new(1))
}

// The search with a counter of its own.
fn emu_on<V: RowView, L: Ledger>(rows: &V, token: &EscContention, blank: Blank) -> Emu
    requires name { blank.name ≡ L.name }
    requires parts { blank.parts ≡ L.parts }
    requires some { 0 < L.parts }
    ensures { IsFound (V.rows rows.now) token.now.0 result }
{
    emu(rows, token, &mut Steps::<L>::new(blank))
}

// What stands at an anchor's identifier: whether there is a row, and the numbers in its value, 0 where it has none.
#[derive(Clone, Copy)]
struct Found {
    there: bool,
    pair: (u64, u64),
}

// Looks for an anchor.
fn anchor_at<V: RowView, L: Ledger>(
    rows: &V,
    key: &RowKey,
    number: u64,
    steps: &mut Steps<L>,
) -> Found
    ensures there { result.there ≡ has (V.rows rows.now) (id_of Anchor key.now number) }
    ensures pair { result.pair ≡ pair_of key.now (get (V.rows rows.now) (id_of Anchor key.now number)) }
    ensures step { steps.new ≡ steps.old + 1 }
{
    let row = rows.probe(&key.id(RowKind::Anchor, number), steps);
    Found {
        there: row.is_some(),
        pair: match row {
            Some(Some(value)) => key.open(&value),
            _ => (0, 0),
        },
    }
}

// How many positions are counted by the last of so many anchors.
fn base_behind<V: RowView, L: Ledger>(
    rows: &V,
    key: &RowKey,
    null: (u64, u64),
    anchors: u64,
    steps: &mut Steps<L>,
) -> u64
    ensures base { result ≡ base_behind (V.rows rows.now) key.now null anchors }
    ensures step { steps.new ≤ steps.old + 1 }
{
    if anchors == 0 {
        return null.1;
    }
    anchor_at(rows, key, null.0.wrapping_add(anchors), steps)
        .pair
        .1
}
