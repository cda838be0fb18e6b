//! What holds of insert payloads.

ghost use Rattle.qe_insert.specs.Laws.{InsertLaws};

/// A blob is one insert payload at most, and is one exactly where nothing is refused; cut short it is refused. What was
/// read stands in the document under its name, and can be written.
pub fn insert_laws()
    ensures { InsertLaws }
{}
