//! The job that runs.

use qe_base::{Duplicate, JobKind, NoMemory};
use qe_tokens::TokenList;

/// A job that runs: its number, what it does, and the tokens that were sent for it.
#[derive(Drop)]
pub(crate) struct Running {
    pub(crate) number: u64,
    pub(crate) kind: JobKind,
    pub(crate) tokens: TokenList,
}

impl Duplicate for Running {
    fn copy(&self) -> Result<Self, NoMemory> {
        Ok(Running {
            number: self.number,
            kind: self.kind,
            tokens: self.tokens.copy()?,
        })
    }
}
