//! Laws of replies: functions whose clauses are the laws.

ghost use Rattle.qe_texts.specs.OneLine.{RepliesAreLines};
ghost use Rattle.qe_texts.specs.Unprintable.{BringNoneHoldNone, UnprintableExactly};

/// The line of a reply under a schema that was read has no line feed.
pub fn a_reply_is_one_line()
    ensures { RepliesAreLines }
{}

/// A reply is `Unprintable` exactly where a double, a decimal or a timestamp stands in a document of it, or is an id of it.
pub fn what_is_unprintable_in_a_reply()
    ensures { UnprintableExactly }
{}

/// Where no command inserts or sets a double, a decimal or a timestamp, no reply holds one.
pub fn what_is_printable_stays_so()
    ensures { BringNoneHoldNone }
{}
