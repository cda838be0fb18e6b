//! What the server keeps of each command.

use crate::Outcome;
use qe_base::{Counts, Duplicate, NoMemory, Nonces, Numbers};
use qe_command::Command;

/// A command that took effect, with all that its effect depends on.
#[derive(Drop)]
pub struct JournalEntry {
    /// Who sent it.
    pub caller: u32,
    /// What was asked.
    pub command: Command,
    /// The nonces that came with it.
    pub nonces: Nonces,
    /// What each search found, in the order of the searches.
    pub counts: Counts,
    /// The fields of the rows that a step opened, in order.
    pub opened: Numbers,
    /// What was answered.
    pub outcome: Outcome,
}

impl Duplicate for JournalEntry {
    fn copy(&self) -> Result<Self, NoMemory> {
        Ok(JournalEntry {
            caller: self.caller,
            command: self.command.copy()?,
            nonces: self.nonces.copy()?,
            counts: self.counts.copy()?,
            opened: self.opened.copy()?,
            outcome: self.outcome,
        })
    }
}
