//! What holds of searches, of anchors and of changes, as contracts of functions that do nothing.

ghost use Rattle.qe_esc.specs.Laws.{RowsInARow, DigitsCounted, AnchorsOpen, ChangedById};

/// Rows that follow one another, with none behind them up to twice as far, have one boundary, and it is their number.
pub fn rows_in_a_row()
    ensures { RowsInARow }
{}

/// A number has as many binary digits as there are powers of two up to it, so `hop` makes few probes.
pub fn digits_counted()
    ensures { DigitsCounted }
{}

/// An anchor's value opens to the numbers that it was sealed from.
pub fn anchors_open()
    ensures { AnchorsOpen }
{}

/// Changes do to each identifier what waits for it, and nothing to the others.
pub fn changed_by_id()
    ensures { ChangedById }
{}
