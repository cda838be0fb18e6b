//! An indexed value as bytes.

ghost use Rattle.std.specs.Prelude.{◌≡◌, ◌≤◌, ◌++◌, length, All, OnOk, IfOk};
ghost use Rattle.qe_indexed.specs.Parts.{IsWithin};
ghost use Rattle.qe_indexed.specs.Spelling.{head_of, joined, IsLaidOut};

use crate::block::Block;
use crate::value::IndexedValue;
use qe_base::{Bytes, NoMemory, bytes_of};
use std::alloc::Global;

/// The first byte of an equality value.
pub(crate) const EQUALITY: u8 = 14;

/// The first byte of a range value.
pub(crate) const RANGE: u8 = 15;

impl IndexedValue {
    /// The value's bytes, which `read` reads again.
    ///
    /// The first byte, the key's id (16 bytes), the BSON type (1 byte), for a range value the number of blocks
    /// (1 byte), the server-encrypted value, and the blocks (96 bytes each).
    pub fn write(&self, alloc: Global) -> Result<Bytes, NoMemory>
        ensures { IfOk result (λ bytes. IsLaidOut self.now bytes) }
    {
        let mut bytes = head(alloc, self)?;
        bytes.extend(self.server_value.slice())?;
        push_blocks(&mut bytes, self.blocks.slice())?;
        Ok(bytes)
    }
}

// What stands before the server-encrypted value.
#[tactic(auto, unfolding(crate::specs::Spelling::head_of))]
fn head(alloc: Global, value: &IndexedValue) -> Result<Bytes, NoMemory>
    ensures bytes { IfOk result (λ bytes. bytes ≡ head_of value.now.range value.now.key_id value.now.value_kind (length value.now.blocks)) }
    ensures long { IfOk result (λ _. length value.now.key_id ≡ 16) }
    ensures within { IsWithin value.now.range value.now.server_value value.now.blocks }
{
    let mut bytes = Bytes::new(alloc);
    bytes.push(if value.range { RANGE } else { EQUALITY })?;
    bytes.extend(bytes_of(&value.key_id))?;
    bytes.push(value.value_kind)?;
    if value.range {
        bytes.push(value.blocks.len() as u8)?;
    }
    Ok(bytes)
}

fn push_blocks(bytes: &mut Bytes, blocks: &[Block]) -> Result<(), NoMemory>
    ensures bytes { OnOk result (bytes.new ≡ bytes.old ++ joined blocks.now) }
    ensures long { OnOk result (All (λ block. length block.0 ≡ 96) blocks.now) }
{
    for block in blocks {
        bytes.extend(bytes_of(&block.0))?;
    }
    Ok(())
}
