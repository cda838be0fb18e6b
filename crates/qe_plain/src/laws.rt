//! Laws of plain collections: functions whose clauses are the laws.

ghost use Rattle.qe_plain.specs.Laws as laws;

/// A command makes a collection of a collection: its documents' ids stay distinct, and their cells in rising field number.
pub fn a_step_keeps_a_collection()
    ensures step { laws.StepsKeepCollections }
    ensures replay { laws.ReplaysMakeCollections }
{}

/// Of values that can be written, two have one type and the same bytes exactly where they are equal.
pub fn values_are_the_same_where_they_are_equal()
    ensures { laws.SameAreEqual }
{}

/// A cell that is set is the value of its field, and every other field keeps its value.
pub fn a_set_cell_takes_its_fields_place()
    ensures { laws.PutsOne }
{}
