//! Find payloads: what a client sends to find a value (FindEqualityPayloadV2) or a range (FindRangePayloadV2).
//!
//! ```text
//! let blob = write_equal(alloc, &payload)?;
//! let again = read_equal(alloc, blob.slice())?;
//! ```
//!
//! A blob is the byte 12 or 13 and one document. Read: equal, range, range_written, laws.
#![tactic(auto)]

mod equal;
mod laws;
mod range;
mod range_written;

pub use equal::{FindEqual, read_equal, write_equal};
pub use laws::find_laws;
pub use range::{FindRange, read_range};
pub use range_written::write_range;
