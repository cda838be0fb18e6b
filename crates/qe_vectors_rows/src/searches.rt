//! Rows of one token, and what searches find among them.

ghost use Rattle.std.specs.Prelude.{◌≡◌, ◌<◌, false};
ghost use Rattle.qe_esc.specs.Rows.{has};

use crate::counted::Counted;
use qe_base::NoMemory;
use qe_esc::{
    Changes, Emu, Esc, Overlay, RowKey, RowKind, RowView, emu_of, plan_anchor, plan_position,
};
use qe_line::{Fault, print_line};
use qe_line_words::{Spaced, bytes_of, kind_of, numbers_of};
use qe_tokens::EscContention;
use std::cell::Cell;

/// Carries the words of a line out: `rows` names the token by a number, `p` and `x` add and take out positions from one
/// number to another, `a` and `b` add an anchor with and without numbers, `s` searches, `w` searches among rows as they
/// will be, and then as they are.
pub fn print(rt: &HostRuntime, line: &str) -> Result<(), Fault> {
    match line.split_once(' ') {
        Some((token, words)) => print_words(rt, numbers_of(token)?, words),
        None => Ok(()),
    }
}

fn print_words(rt: &HostRuntime, [number]: [u64; 1], words: &str) -> Result<(), Fault> {
    let token = EscContention(bytes_of(number));
    let key = RowKey::new(&token);
    let mut esc = Esc::new(rt.alloc());
    for word in words.split(' ') {
        carry_out(rt, &mut esc, &key, &token, word)?;
    }
    Ok(())
}

fn carry_out(
    rt: &HostRuntime,
    esc: &mut Esc,
    key: &RowKey,
    token: &EscContention,
    word: &str,
) -> Result<(), Fault> {
    match kind_of(word) {
        "p" => add_positions(esc, key, word),
        "x" => take_positions(esc, key, word),
        "a" => add_null(esc, key, word),
        "b" => add_anchor(esc, key, word),
        "s" => print_found(rt, esc, token, esc),
        "w" => print_planned(rt, esc, key, token, word),
        _ => Err(Fault::Refused),
    }
}

fn add_positions(esc: &mut Esc, key: &RowKey, word: &str) -> Result<(), Fault> {
    let [first, last] = numbers_of::<2>(word)?;
    for number in first..last.saturating_add(1) {
        add(esc, key.id(RowKind::Position, number), None)?;
    }
    Ok(())
}

fn take_positions(esc: &mut Esc, key: &RowKey, word: &str) -> Result<(), Fault> {
    let [first, last] = numbers_of::<2>(word)?;
    for number in first..last.saturating_add(1) {
        esc.remove(&key.id(RowKind::Position, number));
    }
    Ok(())
}

fn add_null(esc: &mut Esc, key: &RowKey, word: &str) -> Result<(), Fault> {
    let [number, position, anchor] = numbers_of::<3>(word)?;
    let value = key.null_value(&[9; 16], position, anchor);
    add(esc, key.id(RowKind::Anchor, number), Some(value))?;
    Ok(())
}

fn add_anchor(esc: &mut Esc, key: &RowKey, word: &str) -> Result<(), Fault> {
    let [number] = numbers_of::<1>(word)?;
    add(esc, key.id(RowKind::Anchor, number), None)?;
    Ok(())
}

// Adds a row, unless its identifier has one.
fn add(esc: &mut Esc, id: [u8; 32], value: Option<[u8; 32]>) -> Result<(), NoMemory> {
    esc.reserve(1)?;
    if !esc.has(&id) {
        put(esc, id, value);
    }
    Ok(())
}

fn put(esc: &mut Esc, id: [u8; 32], value: Option<[u8; 32]>)
    requires new { has esc.old.rows id ≡ false }
    requires room { 0 < esc.old.spare }
{
    match value {
        Some(value) => esc.put_anchor(id, value),
        None => esc.add_position(id),
    }
}

// Plans a position, an anchor that counts it, and that the position before it goes.
fn plan(
    esc: &Esc,
    changes: &mut Changes,
    key: &RowKey,
    [position, anchor]: [u64; 2],
) -> Result<(), NoMemory> {
    plan_position(esc, changes, key.id(RowKind::Position, position))?;
    let value = key.anchor_value(&[5; 16], position);
    plan_anchor(esc, changes, key.id(RowKind::Anchor, anchor), value)?;
    changes.write(key.id(RowKind::Position, position.wrapping_sub(1)), None)?;
    Ok(())
}

fn print_planned(
    rt: &HostRuntime,
    esc: &mut Esc,
    key: &RowKey,
    token: &EscContention,
    word: &str,
) -> Result<(), Fault> {
    let mut changes = Changes::new(rt.alloc());
    plan(esc, &mut changes, key, numbers_of(word)?)?;
    print_overlaid(rt, esc, &changes, token)?;
    apply(esc, &changes)?;
    print_found(rt, esc, token, esc)
}

fn print_overlaid(
    rt: &HostRuntime,
    esc: &Esc,
    changes: &Changes,
    token: &EscContention,
) -> Result<(), Fault> {
    let overlay = Overlay { rows: esc, changes };
    print_found(rt, &overlay, token, esc)
}

fn apply(esc: &mut Esc, changes: &Changes) -> Result<(), NoMemory> {
    esc.reserve(changes.len())?;
    changes.apply(esc);
    Ok(())
}

fn print_found(
    rt: &HostRuntime,
    rows: &impl RowView,
    token: &EscContention,
    esc: &Esc,
) -> Result<(), Fault> {
    let probes = Cell::new(0);
    let counted = Counted {
        rows,
        probes: &probes,
    };
    let found = emu_of(&counted, token);
    print_emu(rt, &found, probes.get(), esc)
}

// A line: the null anchor, the anchors behind it, the positions counted, those behind them, the rows looked for, and
// how many rows there are, and how many of them without a value.
fn print_emu(rt: &HostRuntime, found: &Emu, probes: u64, esc: &Esc) -> Result<(), Fault> {
    let numbers = [
        found.null_apos,
        found.null_cpos,
        found.hop,
        found.base,
        found.count,
        probes,
        esc.len(),
        positions_in(esc)?,
    ];
    print_line(rt, format_args!("{}{}", found.has_null, Spaced(&numbers)))
}

fn positions_in(esc: &Esc) -> Result<u64, NoMemory> {
    let positions = esc.positions()?;
    Ok(positions.len() as u64)
}
