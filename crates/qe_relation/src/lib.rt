//! The relation between the server's rows and the words of a run, and that maintenance and indexing keep it.
//!
//! Nothing runs here, and no key stands in a definition: `root` has each field's root key. `specs/` says how a token's rows
//! stand (Shape), the relation (Stands), what is sent of an item (Items), and with which token a row is opened (Steps).
//! The functions of `laws` do nothing: each clause is a fact about these definitions. Read: laws.
#![tactic(auto)]

mod laws;

pub use laws::{
    a_mismatch_comes_of_another_token, a_search_counts_its_word, indexing_keeps_the_relation,
    maintenance_keeps_the_relation,
};
