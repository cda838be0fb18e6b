//! Blocks: what ties one item of an indexed value to its document.

ghost use Rattle.std.specs.Prelude.{◌≡◌, ℕ, List, [], true, slice_index_or, IsTrue, ◌↔◌};
ghost use Rattle.qe_indexed.specs.Block.{block_of, zeros, numbers_in, zeros_in, IsMade};

use qe_base::{Duplicate, NoMemory, array_at, write_at};
use qe_seal::{decipher, decipher_pair, encipher, encipher_pair};
use qe_tokens::{EdcTwice, ServerDerived, document_tag, server_count, server_zeros};

/// The length of a block, in bytes.
pub(crate) const BLOCK_LEN: usize = 96;

/// Where the tag stands in a block.
pub(crate) const TAG_AT: usize = 32;

/// Where the enciphered zeros stand in a block, behind the tag.
pub(crate) const ZEROS_AT: usize = 64;

/// A block: an IV and the enciphered count and contention factor, the tag, and an IV and enciphered zeros, 32 bytes each.
#[derive(Clone, Copy, Debug, PartialEq, Eq)]
pub struct Block(pub [u8; 96]);

impl Duplicate for Block {
    fn copy(&self) -> Result<Self, NoMemory> {
        Ok(*self)
    }
}

/// The block of the `count`-th value of an item under a contention factor. It takes no memory.
///
/// The first IV, and under it the AES-256-CTR cipher of the count and the factor, as two little-endian numbers of
/// 8 bytes, under the token of counts; the document's tag; the second IV, and under it the cipher of 16 zero bytes
/// under the token of zeros.
#[tactic(auto, unfolding(crate::specs::Block::block_of))]
pub fn make_block(
    count: u64,
    contention: u64,
    edc: &EdcTwice,
    server: &ServerDerived,
    ivs: &[[u8; 16]; 2],
) -> [u8; 96]
    ensures { result ≡ block_of count contention edc.now.0 server.now.0 (slice_index_or ivs.now 0 []) (slice_index_or ivs.now 1 []) }
{
    let numbers = encipher_pair(&server_count(server).0, &ivs[0], count, contention);
    let zeros = encipher(&server_zeros(server).0, &ivs[1], &[0; 16]);
    let mut block = [0; BLOCK_LEN];
    write_at(&mut block, 0, &numbers);
    write_at(&mut block, TAG_AT, &document_tag(edc, count));
    write_at(&mut block, ZEROS_AT, &zeros);
    block
}

/// The count and the contention factor of a block, and whether its zeros are zeros. It takes no memory.
pub fn open_block(block: &[u8; 96], server: &ServerDerived) -> (u64, u64, bool)
    ensures count { result.0 ≡ (numbers_in block.now server.now.0).0 }
    ensures factor { result.1 ≡ (numbers_in block.now server.now.0).1 }
    ensures zeros { IsTrue result.2 ↔ (zeros_in block.now server.now.0 ≡ zeros) }
    ensures undoes { (count contention : ℕ) (edc iv_count iv_zeros : List ℕ) → IsMade count contention edc server.now.0 iv_count iv_zeros block.now
        → result ≡ (count, contention, true) }
{
    let (count, contention) = decipher_pair(&server_count(server).0, &array_at(block, 0));
    let zeros = decipher(&server_zeros(server).0, &array_at(block, ZEROS_AT));
    (count, contention, are_zeros(&zeros))
}

#[tactic(auto, unfolding(crate::specs::Block::zeros))]
fn are_zeros(bytes: &[u8; 16]) -> bool
    ensures { IsTrue result ↔ (bytes.now ≡ zeros) }
{
    *bytes == [0; 16]
}
