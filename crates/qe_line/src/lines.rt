//! Lines of the standard output.

use crate::bytes::Hex;
use crate::fault::Fault;
use std::fmt::{self, Debug, Display};

/// How many of something.
#[derive(Clone, Copy, Drop)]
pub struct Count<'a>(pub usize, pub &'a str);

impl Display for Count<'_> {
    fn fmt<W: fmt::Write>(&self, f: &mut fmt::Formatter<W>) -> fmt::Result {
        write!(f, "{} {}", self.0, self.1)
    }
}

/// Prints a line.
pub fn print_line(rt: &HostRuntime, line: impl Display + Drop) -> Result<(), Fault> {
    rt.println(line)?;
    Ok(())
}

/// Prints a line: what was asked, and what was answered.
pub fn print_shown(
    rt: &HostRuntime,
    asked: impl Display + Drop,
    answered: impl Display + Drop,
) -> Result<(), Fault> {
    print_line(rt, format_args!("{asked}: {answered}"))
}

/// Prints a line: what was asked, and bytes in hex.
pub fn print_hex(rt: &HostRuntime, asked: &str, bytes: &[u8]) -> Result<(), Fault> {
    print_line(rt, format_args!("{asked}: {}", Hex(bytes)))
}

/// Prints a line for each row: what was asked, and bytes in hex.
pub fn print_hexes<const N: usize>(
    rt: &HostRuntime,
    rows: &[(&str, [u8; N])],
) -> Result<(), Fault> {
    for (asked, bytes) in rows {
        print_hex(rt, asked, bytes)?;
    }
    Ok(())
}

/// Prints a line: what was asked, and the answer or the refusal's name.
pub fn print_answer<T: Display + Drop, E: Debug + Drop>(
    rt: &HostRuntime,
    asked: impl Display + Drop,
    answer: Result<T, E>,
) -> Result<(), Fault> {
    match answer {
        Ok(answered) => print_line(rt, format_args!("{asked}: {answered}")),
        Err(fault) => print_line(rt, format_args!("{asked}: {fault:?}")),
    }
}
