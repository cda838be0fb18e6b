//! Edges of ranges, and what lists of them stand in.

use qe_base::{Duplicate, Listing, NoMemory};
use qe_ecoc::Cipher;

/// The tokens of an edge of a range.
#[derive(Clone, Copy, Debug, PartialEq, Eq)]
pub struct EdgeTokens {
    /// The edge's token of documents under the payload's contention factor, libmongocrypt's
    /// EDCDerivedFromDataTokenAndContentionFactor.
    pub d: [u8; 32],
    /// Its token of rows under that factor, ESCDerivedFromDataTokenAndContentionFactor.
    pub s: [u8; 32],
    /// Its token of blocks, ServerDerivedFromDataToken.
    pub l: [u8; 32],
    /// An IV, and in AES-256-CTR under the ECOCToken `s` and maybe a leaf byte, for the rows that a compaction reads.
    pub p: Cipher,
}

impl Duplicate for EdgeTokens {
    fn copy(&self) -> Result<Self, NoMemory> {
        Ok(*self)
    }
}

/// Edges, in the order in which they stand.
pub type EdgeList = Listing<EdgeTokens>;

/// The tokens of an edge that is looked for.
#[derive(Clone, Copy, Debug, PartialEq, Eq)]
pub struct FindEdge {
    /// The edge's token of documents, libmongocrypt's EDCDerivedFromDataToken.
    pub d: [u8; 32],
    /// Its token of rows, ESCDerivedFromDataToken.
    pub s: [u8; 32],
    /// Its token of blocks, ServerDerivedFromDataToken.
    pub l: [u8; 32],
}

impl Duplicate for FindEdge {
    fn copy(&self) -> Result<Self, NoMemory> {
        Ok(*self)
    }
}

/// Edges in the order in which they are looked for.
pub type FindEdges = Listing<FindEdge>;

/// The edges that cover a range, and the greatest contention factor.
#[derive(Drop)]
pub struct Inner {
    /// The edges.
    pub g: FindEdges,
    /// The factor.
    pub cm: i64,
}
