//! The identifiers of rows, sixteen made at once.

ghost use Rattle.std.specs.Prelude.{◌≡◌, ℕ, ◌<◌, ◌++◌, List, [], map, length, take, drop, slice_index};
ghost use Rattle.std.specs.List.{slice_index_or};
ghost use Rattle.qe_lanes.specs.Keys.{IsKeyedBy, IsKeyedIn};
ghost use Rattle.qe_lanes.specs.declared.keys.LaneKey.{LaneKey};
ghost use Rattle.qe_label_rows.specs.declared.row.Row.{Row};
ghost use Rattle.qe_label_rows.specs.declared.row.WordTokens.{WordTokens};
ghost use Rattle.qe_label_rows.specs.Batches.{AreKeys, AreFirst, HaveWords, identified, identified_by};
ghost use Rattle.qe_label_rows.specs.Made.{identifier_under};

use crate::row::Row;
use qe_lanes::{LaneKey, LaneKeys};
use qe_tokens::LabelKind;

// Puts the key of each of the first sixteen rows in a lane. Lanes without a row keep theirs.
fn put_keys(lanes: &mut LaneKeys, rows: &[Row], keys: &[LaneKey])
    requires { HaveWords (length keys.now) rows.now }
    ensures { (lane : ℕ) (d : Row) (e : LaneKey) (key : List ℕ) → lane < 16 → lane < length rows.now
        → IsKeyedBy (slice_index_or keys.now (slice_index_or rows.now lane d).word e) key → IsKeyedIn lanes.new lane key }
{
    for lane in 0..rows.len().min(16) {
        lanes.set(lane, &keys[rows[lane].word]);
    }
}

// The numbers of the first sixteen rows; where there are fewer, zeros.
fn first_numbers(rows: &[Row]) -> [u64; 16]
    ensures { (lane : ℕ) (d : Row) → lane < 16 → lane < length rows.now → slice_index result lane ≡ (slice_index_or rows.now lane d).number }
{
    let mut numbers = [0; 16];
    for lane in 0..rows.len().min(16) {
        numbers[lane] = rows[lane].number;
    }
    numbers
}

// The identifier of a label of a kind in each lane, from its number and under the lane's key.
fn identifiers(lanes: &LaneKeys, kind: LabelKind, numbers: &[u64; 16]) -> [[u8; 32]; 16]
    ensures { (lane : ℕ) (key : List ℕ) → lane < 16 → IsKeyedIn lanes.now lane key
        → slice_index_or result lane [] ≡ identifier_under kind key (slice_index numbers.now lane) }
{
    match kind {
        LabelKind::Position | LabelKind::Tag => lanes.prf1(numbers),
        LabelKind::Anchor => lanes.prf2(&[0; 16], numbers),
    }
}

// Writes the identifiers of the first sixteen rows.
fn write_identifiers(rows: &mut [Row], identifiers: &[[u8; 32]; 16])
    ensures made { (f : Row → List ℕ) → AreFirst f identifiers.now rows.old
        → rows.new ≡ map (identified_by f) (take 16 rows.old) ++ drop 16 rows.old }
    ensures words { (count : ℕ) → HaveWords count rows.old → HaveWords count rows.new }
{
    for lane in 0..rows.len().min(16) {
        rows[lane].identifier = identifiers[lane];
    }
}

// Makes the identifiers of the first sixteen rows, which are of one kind.
fn identify_first(lanes: &mut LaneKeys, rows: &mut [Row], kind: LabelKind, keys: &[LaneKey])
    requires { HaveWords (length keys.now) rows.old }
    ensures made { (words : List WordTokens) → AreKeys kind keys.now words
        → rows.new ≡ map (identified kind words) (take 16 rows.old) ++ drop 16 rows.old }
    ensures words { HaveWords (length keys.now) rows.new }
{
    put_keys(lanes, rows, keys);
    let made = identifiers(lanes, kind, &first_numbers(rows));
    write_identifiers(rows, &made);
}

// Makes the identifiers of rows of one kind from the keys of their words.
pub(crate) fn identify(rows: &mut [Row], kind: LabelKind, keys: &[LaneKey])
    requires { HaveWords (length keys.now) rows.old }
    ensures { (words : List WordTokens) → AreKeys kind keys.now words → rows.new ≡ map (identified kind words) rows.old }
{
    let mut lanes = LaneKeys::new(&[[0; 32]; 16]);
    for i in 0..rows.len().div_ceil(16) {
        identify_first(&mut lanes, &mut rows[16 * i..], kind, keys);
    }
}
