//! What a search finds.

/// The ends of a token's rows. `base + count`, in 64 bits, is the number of its word that the search gives.
#[derive(Clone, Copy, Debug, PartialEq, Eq)]
pub struct Emu {
    /// Whether there is a null anchor.
    pub has_null: bool,
    /// How many anchors the null anchor says that a cleanup has taken out.
    pub null_apos: u64,
    /// How many positions the null anchor counts.
    pub null_cpos: u64,
    /// How many anchors follow.
    pub hop: u64,
    /// How many positions the last of them counts, or the null anchor where none follows.
    pub base: u64,
    /// How many positions follow those.
    pub count: u64,
}
