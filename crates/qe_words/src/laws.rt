//! Laws about the words.

ghost use Rattle.std.specs.Prelude.{◌≡◌, ◌↔◌, ℕ, List, Some};
ghost use Rattle.qe_words.specs.Words.{words_of};
ghost use Rattle.qe_words.specs.Spelled.{IsTask, spelled};
ghost use Rattle.qe_words.specs.declared.words.Words.{Words};

/// A task is asked for by the words that spell it, and by no others: numbers in decimal, as they are printed.
pub fn tasks_have_one_spelling()
    ensures { (words : List (List ℕ)) (task : Words) → (words_of words ≡ Some task) ↔ (IsTask task × (words ≡ spelled task)) }
{}
