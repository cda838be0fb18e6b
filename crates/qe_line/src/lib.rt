//! What the programs of vectors print their lines with: bytes in hex, bytes that count up, and why a line wasn't printed.
//!
//!     print_hex(rt, "two bytes", &bytes_of::<2>("0aff")?)?;
//!
//! Read: bytes, fault, lines.
#![tactic(auto)]

mod bytes;
mod fault;
mod lines;

pub use bytes::{Hex, bytes_of, counting};
pub use fault::{Fault, accepted};
pub use lines::{Count, print_answer, print_hex, print_hexes, print_line, print_shown};
