//! Which document has which tag: pairs in the order of linking, found by tag and by document.
//!
//!     chains.reserve(1)?;
//!     chains.link(tag, 7);
//!     chains.with_tag(&tag)?; // 7 at its end
#![tactic(auto)]

mod chains;
mod ends;
mod links;
mod nodes;

pub use chains::Chains;
pub use links::Links;
