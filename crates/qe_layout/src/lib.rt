//! One reader of layouts: documents whose elements stand under a table, in any order.
//!
//! ```text
//! let document = open_blob(alloc, 12, blob)?;
//! let mut slots = arrange(alloc, &PairLayout, document)?;
//! Ok(Pair { token: token_in(slots.take(0)), factor: number_in(slots.take(1)) })
//! ```
//!
//! A kind of document is one table: the names, what the lack of each is called, and how each is read. `arrange` goes
//! over a document once, reads each element and puts it into the slot of its row, or answers the first refusal and its
//! path; the kind's builder takes the slots by place. Read: malformed, slots, layout, leaves, documents, blob, laws.
#![tactic(auto)]

mod blob;
mod documents;
mod laws;
mod layout;
mod leaves;
mod malformed;
mod slots;

pub use blob::{only_document, open_blob, under};
pub use documents::{Bounds, Item, bounded_items, document, items};
pub use laws::laid_out_is_read;
pub use layout::{Layout, arrange};
pub use leaves::{bytes, fixed, int32, natural};
pub use malformed::{Kind, Malformed, inside, refuse};
pub use qe_value::Carried;
pub use slots::Slots;
