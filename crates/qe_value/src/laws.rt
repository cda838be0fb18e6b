//! Laws about what is read.

ghost use Rattle.std.specs.Prelude.{◌≡◌, ◌↔◌, ℕ, List, Ok};
ghost use Rattle.qe_base.specs.Bytes.{AreBytes};
ghost use Rattle.qe_value.specs.Reading.{document_at, alone_at};
ghost use Rattle.qe_value.specs.Spelling.{Begins, IsAlone};
ghost use Rattle.qe_value.specs.declared.value.Plain.{Plain};

/// What is read of bytes is the document that begins them by the grammar, and each such document is read.
pub fn what_begins_bytes_is_read()
    ensures { (bytes : List ℕ) (fields : List (List ℕ × Plain)) (n : ℕ) → AreBytes bytes
        → (document_at bytes ≡ Ok (fields, n)) ↔ Begins bytes fields n }
{}

/// What is read of a type and bytes is the value that they spell, and there is one such value at most.
pub fn what_spells_a_value_is_read()
    ensures read { (kind : ℕ) (bytes : List ℕ) (v : Plain) → AreBytes bytes → (alone_at kind bytes ≡ Ok v) ↔ IsAlone kind bytes v }
    ensures one { (kind : ℕ) (bytes : List ℕ) (v w : Plain) → IsAlone kind bytes v → IsAlone kind bytes w → v ≡ w }
{}
