//! Laws of stray words, each as the contract of a function that does nothing.

ghost use Rattle.qe_strays.specs.Met.{StraysJoin};

/// The words of a legal journal are those of its commands, each with its number, and its stray words: these may be learned last.
pub fn strays_are_the_words_of_a_journal()
    ensures { StraysJoin }
{}
