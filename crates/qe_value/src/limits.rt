//! The greatest document that is read and written.

/// The greatest number of bytes of a document.
pub const MOST_BYTES: usize = 16_777_216;

/// The greatest number of levels of a document, itself among them.
pub const MOST_LEVELS: u32 = 100;
