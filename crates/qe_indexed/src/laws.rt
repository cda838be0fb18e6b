//! Laws of values and blocks, each as the contract of a function that does nothing.

ghost use Rattle.qe_indexed.specs.Laws.{SpellingLaws, HasMadeTag};

/// Bytes are laid out as one value at most, and as one exactly where nothing is refused.
pub fn bytes_are_one_value()
    ensures { SpellingLaws }
{}

/// The tag of a block that `make_block` makes is the document's tag for the count.
pub fn a_made_block_has_its_tag()
    ensures { HasMadeTag }
{}
