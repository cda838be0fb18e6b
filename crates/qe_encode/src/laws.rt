//! Laws about what is written.

ghost use Rattle.std.specs.Prelude.{◌≡◌, ℕ, List, length};
ghost use Rattle.qe_encode.specs.Writing.{WritingLaws};
ghost use Rattle.qe_value.specs.Measures.{value_length, document_length};
ghost use Rattle.qe_value.specs.Spelling.{spelled, document_bytes};
ghost use Rattle.qe_value.specs.declared.value.Plain.{Plain};

/// How many bytes values and documents have.
pub fn lengths_are_sums()
    ensures value { (v : Plain) → length (spelled v).bytes ≡ value_length v }
    ensures document { (fields : List (List ℕ × Plain)) → length (document_bytes fields) ≡ document_length fields }
{}

/// Documents and values that fit are refused for want of memory alone.
pub fn what_fits_is_written()
    ensures { WritingLaws }
{}
