//! The law, as the contract of a function that does nothing.

ghost use Rattle.qe_causes.specs.Causes.{EachHasItsCause};

/// A command is answered by a refusal, as `DuplicateId`, `NoJob` or `TokenMismatch`, exactly where the cause of that
/// refusal is there, with the numbers that the reply names.
pub fn each_refusal_has_its_cause()
    ensures { EachHasItsCause }
{}
