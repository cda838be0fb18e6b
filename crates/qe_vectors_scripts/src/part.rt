//! Parts of lines of the standard output.

use qe_line::Fault;
use std::fmt::Display;

/// Prints a part of a line.
pub fn print_part(rt: &HostRuntime, part: impl Display + Drop) -> Result<(), Fault> {
    print!(rt; "{part}")?;
    Ok(())
}
