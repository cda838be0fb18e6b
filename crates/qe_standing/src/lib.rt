//! Stored documents that stand for plain ones: they decode, and they have the tags of their items' words.
//!
//! Nothing runs here. `specs/` says when a document stands for a plain one (Standing), when a state stands for a plain
//! collection (Stands, THE RELATION), and what holds of both (Laws). `proofs/` shows that the relation stands after each
//! command on documents (ActLemmas), since a filter finds what it means (MatchLemmas) and what is indexed has the tags of its
//! words (CellsLemmas); and that what is stored can be read (ReadLemmas). The functions of `laws` do nothing: each clause is a fact about these definitions. Read: laws.
#![tactic(auto)]

mod laws;

pub use laws::{
    a_filter_finds_what_it_means, refusals_have_their_cause, what_is_answered_can_be_learned,
    what_is_stored_can_be_read, what_was_sealed_decodes,
};
