//! Laws of what is read, each as the contract of a function that does nothing.

ghost use Rattle.qe_labels.specs.Under.{Under};
ghost use Rattle.qe_encodes.specs.Fields.{IsUnder};
ghost use Rattle.qe_opening.specs.Laws.{JournalsAreRead, LearnsWithin, ReadsWhatIsMeant};

/// A reply is read as a plain one exactly where it means that one: where each of its indexed cells has the value that was
/// sealed under its field's key.
pub fn a_reply_is_read_where_it_means_something()
    ensures { (u : Under) → IsUnder u → ReadsWhatIsMeant u }
{}

/// The last reply of a journal of encoded commands is always read, whether labels clash or not.
pub fn what_is_answered_is_read()
    ensures { (u : Under) → IsUnder u → JournalsAreRead u }
{}

/// What a caller learns stays within the greatest contentions of the fields, where the reply is one that can be learned.
pub fn what_is_learned_stays_within()
    ensures { LearnsWithin }
{}
