//! Laws of documents that stand for plain ones, each as the contract of a function that does nothing.

ghost use Rattle.qe_labels.specs.Under.{Under};
ghost use Rattle.qe_encodes.specs.Fields.{IsUnder};
ghost use Rattle.qe_standing.specs.Laws.{AnswersCanBeLearned, FiltersHold, RefusalsHaveTheirCause, RepliesAreRead, SentDecodes};

use qe_edges::{lists_are_the_sets, meet_once, texts_differ};

/// What a client sealed and the server enciphered decodes to the values that were meant, whether labels clash or not.
pub fn what_was_sealed_decodes()
    ensures { (u : Under) → IsUnder u → SentDecodes u }
{}

/// Where no two labels share an identifier, a filter finds the documents that it means: no document is missed, and none
/// is found by another's tag.
pub fn a_filter_finds_what_it_means()
    ensures { (u : Under) → IsUnder u → FiltersHold u }
{
    meet_once();
    lists_are_the_sets();
    texts_differ();
}

/// In a journal of encoded commands every stored document can be read, and each reply means something, whether labels
/// clash or not.
pub fn what_is_stored_can_be_read()
    ensures { (u : Under) → IsUnder u → RepliesAreRead u }
{}

/// What a command is answered can be learned: the contentions that a caller is told of are of encrypted fields, and within
/// their greatest ones.
pub fn what_is_answered_can_be_learned()
    ensures { (u : Under) → IsUnder u → AnswersCanBeLearned u }
{}

/// Contentions refuse for a reason: never a value, and a filter only where an earlier entry has raised its field.
pub fn refusals_have_their_cause()
    ensures { (u : Under) → IsUnder u → RefusalsHaveTheirCause u }
{}
