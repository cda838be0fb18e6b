//! How a command's values are indexed, and how a filter is searched: planned over the index as it stands.
//!
//! ```
//! let mut plan = Plan::new(alloc, Counts::new(alloc));
//! let cells = index_cells(&standing, cells, nonces, &mut plan)?; // what is stored; the plan says what the index gets
//! make_room(&plan, &mut esc, &mut ecoc)?; // the last call that may fail
//! carry_out(&plan, &mut esc, &mut ecoc);
//! ```
//!
//! Nothing is changed before `carry_out`, which takes no memory. Contracts cite qe_protocol's definitions: what the index
//! becomes, what is stored, and one true count for each search.
//! Read: plan, items, values, cells, tags, merge, terms; of `specs/`: Plans, Items, Cells, Merge, Searches.
#![tactic(auto)]

mod cells;
mod items;
mod merge;
mod plan;
mod tags;
mod terms;
mod values;

pub use cells::index_cells;
pub use merge::put_cells;
pub use plan::{Plan, Standing, carry_out, make_room};
pub use tags::tags_of;
pub use terms::search_filter;
