//! The numbers of a line, the words that they stand for, and labels as they are printed.

use qe_base::{Bytes, NoMemory};
use qe_line::{Fault, Hex, counting};
use qe_tokens::{Label, LabelKind, Word};
use std::alloc::Global;
use std::fmt;

/// So many numbers with commas between.
pub fn numbers_of<const N: usize>(text: &str) -> Result<[u64; N], Fault> {
    let mut numbers = [0; N];
    let mut parts = text.split(',');
    for number in &mut numbers {
        let Some(digits) = parts.next() else {
            return Err(Fault::Refused);
        };
        let Ok(read) = digits.parse::<u64>() else {
            return Err(Fault::Refused);
        };
        *number = read;
    }
    Ok(numbers)
}

/// The word of an item whose 8 bytes are a number, high byte first.
pub fn item_of(alloc: Global, field: u64, item: u64, contention: u64) -> Result<Word, NoMemory> {
    let item = Bytes::from_slice(alloc, &item.to_be_bytes())?;
    Ok(Word::Item {
        field: (field & 0xffff_ffff) as u32,
        item,
        contention,
    })
}

/// The stray word of 32 bytes that count up from a number's low byte.
pub fn stray_of(first: u64) -> Word {
    Word::Stray {
        token: counting((first & 0xff) as u8),
    }
}

/// The kind of a number: a position's 0, an anchor's 1, a tag's 2.
pub fn kind_of(number: u64) -> Result<LabelKind, Fault> {
    match number {
        0 => Ok(LabelKind::Position),
        1 => Ok(LabelKind::Anchor),
        2 => Ok(LabelKind::Tag),
        _ => Err(Fault::Refused),
    }
}

/// A label, printed.
#[derive(Drop)]
pub struct Shown<'a>(pub &'a Label);

impl fmt::Display for Shown<'_> {
    fn fmt<W: fmt::Write>(&self, f: &mut fmt::Formatter<W>) -> fmt::Result {
        let name = name_of(self.0.kind);
        let number = self.0.number;
        match &self.0.word {
            Word::Item {
                field,
                item,
                contention,
            } => {
                let item = Hex(item.slice());
                write!(f, "{name} {field} {item} {contention} {number}")
            }
            Word::Stray { token } => {
                let token = Hex(token);
                write!(f, "{name} stray {token} {number}")
            }
        }
    }
}

fn name_of(kind: LabelKind) -> &'static str {
    match kind {
        LabelKind::Position => "position",
        LabelKind::Anchor => "anchor",
        LabelKind::Tag => "tag",
    }
}
