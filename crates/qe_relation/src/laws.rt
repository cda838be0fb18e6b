//! Laws of the relation, each as the contract of a function that does nothing.

ghost use Rattle.std.specs.Prelude.{ℕ, List};
ghost use Rattle.qe_relation.specs.Laws.{CountAllWords, KeptByIndexing, MaintenanceKeeps, MismatchesAtStrays};

/// A search for a word has one true count, and its number says how often the word was indexed; for a stray word it is 0.
pub fn a_search_counts_its_word()
    ensures { CountAllWords }
{}

/// The relation stays where words become known and where items are indexed, and these get tags of their words.
pub fn indexing_keeps_the_relation()
    ensures { (root : ℕ → List ℕ) → KeptByIndexing root }
{}

/// The relation stays where a job begins, fresh or resumed, where it steps, ends and is abandoned, and where any of these
/// is refused.
pub fn maintenance_keeps_the_relation()
    ensures { MaintenanceKeeps }
{}

/// A step meets a mismatch exactly at a row that it opens with another token than its field's.
pub fn a_mismatch_comes_of_another_token()
    ensures { MismatchesAtStrays }
{}
