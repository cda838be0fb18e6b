//! Numbers as they are printed, and the bytes that stand for them.

use std::fmt;

/// Numbers, printed each behind a space.
#[derive(Drop)]
pub struct Spaced<'a>(pub &'a [u64]);

impl fmt::Display for Spaced<'_> {
    fn fmt<W: fmt::Write>(&self, f: &mut fmt::Formatter<W>) -> fmt::Result {
        for number in self.0 {
            write!(f, " {number}")?;
        }
        Ok(())
    }
}

/// The numbers that bytes stand for, printed each behind a space.
#[derive(Drop)]
pub struct SpacedTags<'a>(pub &'a [[u8; 32]]);

impl fmt::Display for SpacedTags<'_> {
    fn fmt<W: fmt::Write>(&self, f: &mut fmt::Formatter<W>) -> fmt::Result {
        for tag in self.0 {
            write!(f, " {}", number_of(tag))?;
        }
        Ok(())
    }
}

/// The 32 bytes that stand for a number: little-endian, and zeros.
pub fn bytes_of(number: u64) -> [u8; 32] {
    let mut bytes = [0; 32];
    bytes[..8].copy_from_slice(&number.to_le_bytes());
    bytes
}

/// The number that such bytes stand for.
pub fn number_of(bytes: &[u8; 32]) -> u64 {
    match bytes.first_chunk::<8>() {
        Some(front) => u64::from_le_bytes(*front),
        None => 0,
    }
}
