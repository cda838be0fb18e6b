//! Laws of scripts: functions whose clauses are the laws.

ghost use Rattle.qe_script.specs.Printed.{LinesBringNone, RepliesArePrinted};

/// No line inserts or sets a double, a decimal or a timestamp, and so no reply to a script's own commands is `Unprintable`.
pub fn what_a_script_holds_is_printed()
    ensures lines { LinesBringNone }
    ensures replies { RepliesArePrinted }
{}
