//! The stray words of a journal: rows that a step opened under another token than their field's.
//!
//! The journal tells them alone, without the server's state: a step's entry has the fields of the rows that it opened and what
//! each was searched for, and the begin before it the tokens. `specs/` says so (Strays), and what a journal's words are without them
//! (Met). Read: strays, laws.
#![tactic(auto)]

mod laws;
mod strays;

pub use laws::strays_are_the_words_of_a_journal;
pub use strays::strays_of;
