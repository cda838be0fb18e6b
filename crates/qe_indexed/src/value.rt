//! Indexed values: their parts and their tags.

ghost use Rattle.std.specs.Prelude.{◌≡◌, ◌<◌, length, map, option_map, slice_get, Some, IfOk};
ghost use Rattle.qe_indexed.specs.Block.{tag_in};

use crate::block::{Block, TAG_AT, ZEROS_AT};
use qe_base::{Bytes, Duplicate, Listing, NoMemory, Tags};
use std::alloc::Global;
use std::marker::Model;

/// Blocks of 96 bytes.
pub type Blocks = Listing<Block>;

/// What a server stores in the place of a value that is searched for.
///
/// The server-encrypted value has at least 16 bytes: an IV, and the AES-256-CTR cipher of the payload's
/// `v`, which is the user's key id and the sealed value.
#[derive(Drop)]
pub struct IndexedValue {
    /// Whether the value's field is searched by range. If not there is one block, else 1 to 255, one for each edge.
    pub range: bool,
    /// The id of the key that the field is indexed under.
    pub key_id: [u8; 16],
    /// The BSON type of the plain value.
    pub value_kind: u8,
    /// The server-encrypted value.
    pub server_value: Bytes,
    /// The blocks, in the order of the edges.
    pub blocks: Blocks,
}

impl Model for IndexedValue {
    ghost use Rattle.qe_indexed.specs.Parts.{Indexed, IsWithin};

    ghost Value = { Indexed };

    ghost view = { λ a. record { range = a.range; key_id = a.key_id; value_kind = a.value_kind; server_value = a.server_value; blocks = a.blocks } };

    ghost invariant = { λ a. IsWithin a.range a.server_value a.blocks };
}

impl IndexedValue {
    /// The bytes of a block, by its place from 0.
    pub fn block(&self, i: usize) -> &[u8; 96]
        requires { i < length self.now.blocks }
        ensures { option_map (λ block. block.0) (slice_get self.now.blocks i) ≡ Some result.now }
    {
        &self.blocks.slice()[i].0
    }

    /// The tag of a block, by its place from 0: its bytes 32 to 63.
    pub fn tag(&self, i: usize) -> &[u8; 32]
        requires { i < length self.now.blocks }
        ensures { option_map (λ block. tag_in block.0) (slice_get self.now.blocks i) ≡ Some result.now }
    {
        tag_of(&self.blocks.slice()[i])
    }

    /// The tags of the blocks, in their order.
    pub fn tags(&self, alloc: Global) -> Result<Tags, NoMemory>
        ensures { IfOk result (λ tags. tags ≡ map (λ block. tag_in block.0) self.now.blocks) }
    {
        let mut tags = Tags::new(alloc);
        for block in self.blocks.slice() {
            tags.push(*tag_of(block))?;
        }
        Ok(tags)
    }
}

impl Duplicate for IndexedValue {
    fn copy(&self) -> Result<Self, NoMemory> {
        let server_value = self.server_value.copy()?;
        let blocks = self.blocks.copy()?;
        Ok(IndexedValue {
            range: self.range,
            key_id: self.key_id,
            value_kind: self.value_kind,
            server_value,
            blocks,
        })
    }
}

fn tag_of(block: &Block) -> &[u8; 32]
    ensures { result.now ≡ tag_in block.now.0 }
{
    match <&[u8; 32]>::try_from(&block.0[TAG_AT..ZEROS_AT]) {
        Ok(tag) => tag,
        Err(_) => unreachable!(),
    }
}
