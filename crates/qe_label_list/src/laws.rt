//! Laws of the first clash, each as the contract of a function that does nothing.

ghost use Rattle.qe_label_list.specs.Laws.{FirstIsLeast, NoneIsClear};

/// A list of labels in their order has no clash exactly where no two of them share an identifier, tags and rows apart.
pub fn a_list_without_a_clash_has_none()
    ensures { NoneIsClear }
{}

/// Of all clashes of a list the first is the one whose second label is least, and of those the one whose first label is.
pub fn the_first_clash_is_the_least()
    ensures { FirstIsLeast }
{}
