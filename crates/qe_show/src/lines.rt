//! The lines that show blobs.

ghost use Rattle.std.specs.Prelude.{◌≡◌, IfOk, IfErr};
ghost use Rattle.qe_base.specs.Lines.{placed_lines};
ghost use Rattle.qe_show.specs.Lines.{Shows, IsWhyNot, blob_of};

use crate::blob::blob_line;
use hex::FromHexError;
use qe_base::{Bytes, Lines, NoMemory};
use std::alloc::Global;
use thiserror::Error;

/// Why bytes aren't shown.
#[derive(Clone, Copy, Debug, PartialEq, Eq, Error)]
pub enum ShowFault {
    /// The line of this number, from 1, isn't hex digits of whole bytes: the first such line.
    #[error("line {line} isn't hex digits, two for each byte")]
    NotHex { line: u64 },
    /// There was no memory.
    #[error("there is not enough memory")]
    NoMemory,
}

impl From<NoMemory> for ShowFault {
    ghost use Rattle.std.specs.Prelude.{◌≡◌};
    ghost use Rattle.qe_show.specs.declared.lines.ShowFault.TheVariants.{NoMemory};

    ghost from_gives = { λ _ fault. fault ≡ NoMemory };

    fn from(_: NoMemory) -> Self {
        ShowFault::NoMemory
    }
}

/// The lines that show the blobs of lines of hex digits. An empty line is passed over.
pub fn show(alloc: Global, bytes: &[u8]) -> Result<Bytes, ShowFault>
    ensures shown { IfOk result (Shows (placed_lines bytes.now)) }
    ensures fault { IfErr result (IsWhyNot (placed_lines bytes.now)) }
{
    let mut text = Bytes::new(alloc);
    let mut lines = Lines::of(bytes);
    while let Some((passed, line)) = lines.next_line() {
        if line.is_empty() {
            continue;
        }
        let Some(blob) = blob_of(alloc, line)? else {
            return Err(ShowFault::NotHex { line: passed + 1 });
        };
        let shown = blob_line(alloc, blob.slice())?;
        text.extend(shown.slice())?;
        text.extend(b"\n")?;
    }
    Ok(text)
}

// The bytes of a line of hex digits, if it is one.
#[tactic(auto, unfolding(crate::specs::Lines::blob_of))]
fn blob_of(alloc: Global, line: &[u8]) -> Result<Option<Bytes>, NoMemory>
    ensures { IfOk result (λ blob. blob ≡ blob_of line.now) }
{
    match hex::decode(alloc, line) {
        Ok(blob) => Ok(Some(Bytes::from_vec(alloc, blob))),
        Err(FromHexError::OutOfMemory) => Err(NoMemory),
        Err(_) => Ok(None),
    }
}
