//! Laws of edges and covers: functions whose clauses are the laws.

ghost use Rattle.qe_edges.specs.Rules.{TellsStored};
ghost use Rattle.qe_edges.specs.Prefixes.{MeetInside, MeetOnce, OneEdgeList, OneCoverList, EdgesAreListed, CoverIsListed, TellsPrefixes};
ghost use Rattle.qe_edges.specs.Texts.{TextsDiffer};

/// A value lies in an interval exactly where one of its edges is in the interval's cover, and then one alone is.
pub fn meet_once()
    ensures meets { MeetInside }
    ensures once { MeetOnce }
{}

/// Prefixes with one text are one prefix.
pub fn texts_differ()
    ensures { TextsDiffer }
{}

/// The clauses of `edges` and `cover` leave one list each.
pub fn one_list()
    ensures edges { OneEdgeList }
    ensures covers { OneCoverList }
{}

/// The functions that the calls' clauses cite list the sets of edges and of a cover, in their order.
pub fn lists_are_the_sets()
    ensures edges { EdgesAreListed }
    ensures cover { CoverIsListed }
{}

/// The tests tell the stored levels and prefixes.
pub fn tests_tell_the_stored()
    ensures levels { TellsStored }
    ensures prefixes { TellsPrefixes }
{}
