//! The identifiers of rows and the tags of documents.

ghost use Rattle.std.specs.Prelude.{◌≡◌};
ghost use Rattle.qe_tokens.specs.Tokens.{position_of, anchor_of, document_tag_of};

use crate::{EdcTwice, EscTag};
use qe_seal::{prf1, prf2};

/// The identifier of a position row. Positions count from 1.
pub fn position_id(tag: &EscTag, cpos: u64) -> [u8; 32]
    ensures { result ≡ position_of tag.now.0 cpos }
{
    prf1(&tag.0, cpos)
}

/// The identifier of an anchor row. Anchors count from 1.
pub fn anchor_id(tag: &EscTag, apos: u64) -> [u8; 32]
    ensures { result ≡ anchor_of tag.now.0 apos }
{
    prf2(&tag.0, 0, apos)
}

/// The identifier of the null anchor, which a cleanup leaves.
pub fn null_id(tag: &EscTag) -> [u8; 32]
    ensures { result ≡ anchor_of tag.now.0 0 }
{
    prf2(&tag.0, 0, 0)
}

/// The tag that a document gets for the `count`-th value of its word.
pub fn document_tag(edc: &EdcTwice, count: u64) -> [u8; 32]
    ensures { result ≡ document_tag_of edc.now.0 count }
{
    prf1(&edc.0, count)
}
