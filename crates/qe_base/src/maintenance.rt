//! What the maintenance of rows speaks of: jobs, and what a search of rows found.

use crate::{Duplicate, Listing, NoMemory};

/// What a job of maintenance does.
#[derive(Clone, Copy, Debug, PartialEq, Eq)]
pub enum JobKind {
    /// Positions are summed up in anchors.
    Compact,
    /// Positions and anchors are summed up in the null anchor.
    Cleanup,
}

/// What one search of rows found: how many anchors behind the null anchor, and how many positions behind the last anchor.
#[derive(Clone, Copy, Debug, PartialEq, Eq)]
pub struct Count {
    /// The token that was searched for, an ESC token under a contention factor.
    pub token: [u8; 32],
    /// The anchors found, counted from the null anchor.
    pub hop: u64,
    /// The positions found, counted from the last anchor's.
    pub positions: u64,
}

/// Counts, one for each search, in order.
pub type Counts = Listing<Count>;

impl Duplicate for Count {
    fn copy(&self) -> Result<Self, NoMemory> {
        Ok(*self)
    }
}
