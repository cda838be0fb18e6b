//! Laws of what is sent and of what is stored, each as the contract of a function that does nothing.

ghost use Rattle.qe_labels.specs.Under.{Under};
ghost use Rattle.qe_encodes.specs.Fields.{IsUnder};
ghost use Rattle.qe_encodes.specs.Laws.{SendersEncode, MeansOne, ItemsMeet};

use qe_edges::{lists_are_the_sets, meet_once, texts_differ};

/// What a sender sends is sent for the plain command: its payloads have the fields' tokens under one contention factor up
/// to the caller's number, and its seals are of the values.
pub fn what_is_sent_is_encoded()
    ensures { SendersEncode }
{}

/// Stored documents, and replies, mean one thing at most to those who have the keys.
pub fn what_is_stored_means_one_thing()
    ensures { (u : Under) → IsUnder u → MeansOne u }
{}

/// A value's items and a term's have one in common exactly where the term holds of the value: the value's bytes are the
/// term's, or an edge of it is in the interval's cover.
pub fn items_meet_where_terms_hold()
    ensures { (u : Under) → IsUnder u → ItemsMeet u }
{
    meet_once();
    lists_are_the_sets();
    texts_differ();
}
