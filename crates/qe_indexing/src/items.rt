//! The items of a value: each is searched for, gets the next position of its word, a row for compaction and a block.

ghost use Rattle.std.specs.Prelude.{◌≡◌, ◌*◌, ◌≤◌, ◌+◌, ◌%◌, ◌^◌, [], ◌∷◌, ◌++◌, length, drop, IfOk, OnOk};
ghost use Rattle.qe_protocol.specs.Indexing.{block_at};
ghost use Rattle.qe_indexing.specs.Plans.{index_in};
ghost use Rattle.qe_indexing.specs.Items.{ItemPlanned, ItemsPlanned};

use crate::plan::{Plan, Standing};
use qe_base::{Count, NoMemory};
use qe_ecoc::Entry;
use qe_esc::{Emu, Overlay, RowKey, RowKind, emu_of, plan_position};
use qe_indexed::{Block, Blocks, make_block};
use qe_payload::EdgeTokens;
use qe_tokens::{EdcContention, EscContention, ServerDerived, edc_twice};

/// The nonces from a place on.
pub(crate) fn nonces_from(nonces: &[[u8; 16]], place: usize) -> &[[u8; 16]]
    requires { place ≤ length nonces.now }
    ensures { result.now ≡ drop place nonces.now }
{
    &nonces[place..]
}

/// The number of an item's next position.
fn next_number(found: &Emu) -> u64
    ensures { result ≡ ((found.now.base + found.now.count) % 2 ^ 64 + 1) % 2 ^ 64 }
{
    found.base.wrapping_add(found.count).wrapping_add(1)
}

/// Plans an item of a field, under the contention factor of its value. The block takes the first two nonces.
fn index_item(
    standing: &Standing,
    field: u32,
    factor: u64,
    item: &EdgeTokens,
    nonces: &[[u8; 16]],
    plan: &mut Plan,
) -> Result<Block, NoMemory>
    requires { 2 ≤ length nonces.now }
    ensures { IfOk result (ItemPlanned (index_in standing.now) field factor item.now nonces.now plan.old plan.new) }
{
    let token = EscContention(item.s);
    let found = emu_of(
        &Overlay {
            rows: standing.esc,
            changes: &plan.changes,
        },
        &token,
    );
    let number = next_number(&found);
    let id = RowKey::new(&token).id(RowKind::Position, number);
    plan_position(standing.esc, &mut plan.changes, id)?;
    plan.entries.push(Entry {
        field,
        value: item.p,
    })?;
    plan.counts.push(Count {
        token: item.s,
        hop: found.hop,
        positions: found.count,
    })?;
    Ok(block_at(number, factor, item, nonces))
}

/// The block of an item of this number, which takes the first two nonces.
fn block_at(number: u64, factor: u64, item: &EdgeTokens, nonces: &[[u8; 16]]) -> Block
    requires { 2 ≤ length nonces.now }
    ensures { result ≡ block_at factor item.now number nonces.now }
{
    let edc = edc_twice(&EdcContention(item.d));
    let server = ServerDerived(item.l);
    Block(make_block(number, factor, &edc, &server, &[nonces[0], nonces[1]]))
}

/// Plans the items of a value, in their order. Each takes two nonces.
pub(crate) fn index_items(
    standing: &Standing,
    field: u32,
    factor: u64,
    items: &[EdgeTokens],
    nonces: &[[u8; 16]],
    plan: &mut Plan,
) -> Result<Blocks, NoMemory>
    requires { 2 * length items.now ≤ length nonces.now }
    ensures { IfOk result (ItemsPlanned (index_in standing.now) field factor items.now nonces.now (drop (2 * length items.now) nonces.now) plan.old plan.new) }
{
    let mut blocks = Blocks::new(standing.alloc);
    let mut place = 0;
    for item in items {
        let block = index_item(
            standing,
            field,
            factor,
            item,
            nonces_from(nonces, place),
            plan,
        )?;
        blocks.push(block)?;
        place += 2;
    }
    Ok(blocks)
}
