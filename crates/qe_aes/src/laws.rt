//! Laws of the cipher and of the counter mode, each as the contract of a function that does nothing.

ghost use Rattle.qe_aes.specs.Laws.{UndoEachOther, CounterModeLaws, FindsInverses};
ghost use Rattle.qe_aes.specs.Vectors.{EnciphersAsFips197, DeciphersAsFips197, CombinesAsSp80038a};

/// The cipher and its inverse undo each other, under every key and at every block.
pub fn undo_each_other()
    ensures { UndoEachOther }
{}

/// The counter mode makes the only list in SP 800-38A's relation, and is its own inverse.
pub fn counter_mode_laws()
    ensures { CounterModeLaws }
{}

/// The inverse in SBOX is the field's.
pub fn finds_inverses()
    ensures { FindsInverses }
{}

/// The definitions that the contracts cite compute the vectors of FIPS 197 and SP 800-38A.
pub fn standard_vectors()
    ensures enciphered { EnciphersAsFips197 }
    ensures deciphered { DeciphersAsFips197 }
    ensures combined { CombinesAsSp80038a }
{}
