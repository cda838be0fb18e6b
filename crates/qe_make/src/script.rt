//! A script that is made.

ghost use Rattle.std.specs.Prelude.{◌≡◌, IfOk};
ghost use Rattle.qe_make.specs.Made.{made};

use crate::header::header;
use crate::rules::Draft;
use qe_base::{Bytes, NoMemory};
use std::alloc::Global;

/// A script of so many documents, whose values are drawn from a seed: a header and commands, a line of compact JSON each.
pub fn make(alloc: Global, documents: u32, seed: u64) -> Result<Bytes, NoMemory>
    ensures exact { IfOk result (λ text. text ≡ made documents seed) }
{
    let count = u64::from(documents);
    let header = header(alloc, seed)?;
    let mut draft = Draft {
        alloc,
        text: Bytes::new(alloc),
        state: seed,
    };
    draft.add(header)?;
    for i in 1..count + 1 {
        draft.write_for(count, i)?;
    }
    Ok(draft.text)
}
