//! Maintenance beside writers: a journal of encoded commands, beside the plain collection.
//!
//! Nothing runs here. `specs/` says the theorem (Journals), which searches an entry makes (Searches), and what holds of each entry
//! (Entries).
//! The functions of `laws` do nothing: each clause is a fact about definitions. Read: laws.
#![tactic(auto)]

mod laws;

pub use laws::{
    a_front_is_a_journal, an_entry_is_the_only_one, each_entry_is_the_only_one,
    each_entry_keeps_the_relation, each_mismatch_tells_of_another_token,
    each_search_counts_its_word, maintenance_beside_writers, own_tokens_meet_no_mismatch,
};
