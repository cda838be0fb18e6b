//! The rows of the encrypted state collection (ESC), and the search that counts a word's rows.
//!
//! ```
//! rows.reserve(1)?;
//! rows.add_position(RowKey::new(&token).id(RowKind::Position, 1));
//! let found = emu_of(&rows, &token); // a word's rows, counted: base 0 and count 1
//! ```
//!
//! Contracts see an `Esc` as a finite map and the room that is left. A search asks for one row at a time, of a
//! `RowView`: of an `Esc`, or of an `Overlay`, which shows rows as `Changes` will make them. `hop` makes at most two
//! probes for each binary digit of its answer, and two more.
//! Read: collection, key, view, boundary, found, search, changes, laws; the definitions in `specs/` stand in that order.
#![tactic(auto)]

mod boundary;
mod changes;
mod collection;
mod found;
mod key;
mod laws;
mod search;
mod view;

pub use boundary::hop;
pub use changes::{Changes, Overlay, plan_anchor, plan_position};
pub use collection::{Esc, EscRows};
pub use found::Emu;
pub use key::{RowKey, RowKind};
pub use laws::{anchors_open, changed_by_id, digits_counted, rows_in_a_row};
pub use search::{emu, emu_of};
pub use view::RowView;
