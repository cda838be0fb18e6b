//! Laws of the definitions, each as the contract of a function that does nothing.

ghost use Rattle.qe_labels.specs.Laws.{Grows, ListsLabels, TestsClashes};
ghost use Rattle.qe_labels.specs.Numbers.{Numbers};

/// Numbers only grow: each label of a run stays one, and a run without a clash had none before.
pub fn numbers_only_grow()
    ensures { Grows }
{}

/// The list has each label of a run once, in the order of kinds, words and numbers.
pub fn labels_are_listed()
    ensures { (numbers : Numbers) → ListsLabels numbers }
{}

/// A run is free of clashes exactly where no two labels in the list share an identifier.
pub fn clashes_are_tested()
    ensures { TestsClashes }
{}
