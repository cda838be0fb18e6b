//! What is sent for a plain command, and what is stored means, to those who have a schema's keys.
//!
//! Nothing runs here. `specs/` says which items and words a command has (Items, Words), what a caller has learned (Callers),
//! which plain commands mean something (Meant), what is sent of a value and of a term (Payloads), which commands are sent
//! for a plain one (Encodes, THE RELATION), what a sender sends (Draws, Sending), what is stored means (Decodes, Replies),
//! how often a journal indexes a word (Counted), what is left without maintenance (Kept), and journals of encoded commands
//! (Encoded). The functions of `laws` do nothing: each clause is a fact about these definitions. Read: laws.
#![tactic(auto)]

mod laws;

pub use laws::{
    items_meet_where_terms_hold, what_is_sent_is_encoded, what_is_stored_means_one_thing,
};
