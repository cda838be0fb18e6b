//! What holds of find payloads.

ghost use Rattle.qe_find.specs.Laws.{EqualLaws, RangeLaws};

/// A blob is one find payload at most, and is one exactly where nothing is refused; cut short it is refused. What was
/// read stands in the document under its name, and can be written.
pub fn find_laws()
    ensures equal { EqualLaws }
    ensures range { RangeLaws }
{}
