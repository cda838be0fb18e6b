//! What passes between client and server, and what the server's state must become.
//!
//! A client sends a `Command` and nonces, and the server answers a `Reply` and adds a `JournalEntry`. What each command
//! does to the state is defined in `specs/`, without any key: documents, rows, the work of maintenance and each field's
//! contention (State), when a count is true (Counting), what one indexed value, one search, one unit of maintenance does
//! (Indexing, Filters, Documents, Units, Jobs, Contention), all commands together (Next), journals of which each entry is
//! allowed (Journal), and what holds of all that (Laws, UnitLaws).
//! The functions of `laws` do nothing: each clause is a fact about these definitions. Read: row, reply, journal, laws.
#![tactic(auto)]

mod journal;
mod laws;
mod reply;
mod row;

pub use journal::JournalEntry;
pub use laws::{
    a_compaction_does_all_its_units, a_compaction_step_does_its_units, a_fresh_begin_takes_all,
    a_job_begins_as_it_was_sent, a_mismatch_parks_what_is_left, a_mismatched_row_stays,
    a_resumed_begin_leaves_all_lists, a_step_is_its_units, a_step_says_what_is_left,
    a_true_count_is_the_only_one, a_unit_takes_what_is_first, all_factors_are_searched,
    an_end_changes_no_row, an_indexed_value_has_its_tags, anchors_say_what_was_counted,
    contentions_only_rise, counts_are_as_many_as_rows_opened, documents_are_kept,
    ids_are_the_same_where_they_are_equal, ids_stay_distinct, jobs_are_numbered,
    journals_grow_by_entries, one_document_changes_at_most, refused_commands_change_nothing,
    rows_aside_go_first, tags_are_those_of_the_blocks,
};
pub use qe_command::{Command, SentCell, SentCells, SentFilter, SentTerm, nonces_needed};
pub use reply::{Outcome, Reply};
pub use row::{Row, Rows};
