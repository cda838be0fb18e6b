//! Laws of the definitions, each as the contract of a function that does nothing.

ghost use Rattle.std.specs.Prelude.{List};
ghost use Rattle.qe_field.specs.declared.field.Field.{Field};
ghost use Rattle.qe_protocol.specs.Journal.{GrowsByEntries};
ghost use Rattle.qe_protocol.specs.Laws.{OfEach, ChangesNothing, KeepsDocuments, ChangesOneAtMost, ParksAtMismatch, SaysWhatIsLeft, KeepsApart, IdsAgree, KeepsTags, CountsJobs, ResumesParked, EndsAlone, SearchesAllFactors, StoresTags, FreshTakesAll, RaisesAlone, StartsAsSent, StepsJoin, StepsOn};
ghost use Rattle.qe_protocol.specs.UnitLaws.{OfUnits, UnitsTake, UnitsWrite, GoesOn, KeepsMismatch, CountsOpened, CompactsAll, RowsGoFirst, OneTrueCount, WritesCounts};

/// A reply that says that nothing was changed comes where nothing was: of refused commands, of an update and a
/// delete without a match, and of a find.
pub fn refused_commands_change_nothing()
    ensures { OfEach ChangesNothing }
{}

/// A document stays, at its place, until a delete; new ones come behind.
pub fn documents_are_kept()
    ensures { OfEach KeepsDocuments }
{}

/// An insert, an update and a delete change one document at most, and no other command changes any.
pub fn one_document_changes_at_most()
    ensures { OfEach ChangesOneAtMost }
{}

/// Where no two documents have one id, none have afterwards.
pub fn ids_stay_distinct()
    ensures { OfEach KeepsApart }
{}

/// Two ids are the same where they are equal, which the store compares, and where their types and bytes are the same, which the
/// plain collection compares.
pub fn ids_are_the_same_where_they_are_equal()
    ensures { IdsAgree }
{}

/// Where each document's tags are those of its cells' blocks, they are afterwards.
pub fn tags_are_those_of_the_blocks()
    ensures { OfEach KeepsTags }
{}

/// The last job's number grows by one where a job begins, which runs under it, and never else.
pub fn jobs_are_numbered()
    ensures { OfEach CountsJobs }
{}

/// A begin leaves rows and lists as they are where something is parked.
pub fn a_resumed_begin_leaves_all_lists()
    ensures { ResumesParked }
{}

/// A job that begins has the kind and the tokens that were sent, and no leaves.
pub fn a_job_begins_as_it_was_sent()
    ensures { StartsAsSent }
{}

/// An end and an abandon change no document, no row and no list; where they are answered so, no job runs, and an end's answer
/// has the job's leaves.
pub fn an_end_changes_no_row()
    ensures { EndsAlone }
{}

/// Each edge of a term is searched under each contention factor from 0 to its greatest, in this order.
pub fn all_factors_are_searched()
    ensures { SearchesAllFactors }
{}

/// A step of limit n + 1 is a step of limit 1 and then one of limit n, as long as no unit mismatches.
pub fn a_step_is_its_units()
    ensures units { GoesOn }
    ensures steps { StepsJoin }
{}

/// A unit drops the first row aside, or takes out the first doomed identifier, or the first captured one, in a compaction as
/// in a cleanup.
pub fn a_unit_takes_what_is_first()
    ensures { UnitsTake }
{}

/// A unit on a row writes the anchor of what its search counted, and counts the row's leaf; a cleanup dooms as many anchors as were
/// counted, those behind its null anchor before.
pub fn a_unit_writes_what_was_counted()
    ensures { UnitsWrite }
{}

/// After a mismatch no job runs; of the rows aside those that the step handled are gone, and the first of those that stay
/// is the mismatched one. What was doomed stays so.
pub fn a_mismatch_parks_what_is_left()
    ensures { OfEach ParksAtMismatch }
{}

/// A step without a mismatch answers how much is left, and its job runs on.
pub fn a_step_says_what_is_left()
    ensures { OfEach SaysWhatIsLeft }
{}

/// The row of a mismatch stays, the first of those aside.
pub fn a_mismatched_row_stays()
    ensures { OfUnits KeepsMismatch }
{}

/// There are as many counts as rows were opened.
pub fn counts_are_as_many_as_rows_opened()
    ensures { OfUnits CountsOpened }
{}

/// A compaction does as many units as its limit says, or all that are left, as long as no unit mismatches.
pub fn a_compaction_does_all_its_units()
    ensures { CompactsAll }
{}

/// A step of a compaction that answers how much is left has done a unit for each of its nonces, or all that were left.
pub fn a_compaction_step_does_its_units()
    ensures { StepsOn }
{}

/// No identifier is taken out as long as a row is aside.
pub fn rows_aside_go_first()
    ensures { OfUnits RowsGoFirst }
{}

/// A token has one true count, where its rows are there and none are behind them up to twice as far.
pub fn a_true_count_is_the_only_one()
    ensures { OneTrueCount }
{}

/// The anchor that a compaction writes, and the null anchor after a cleanup, open to what was counted; every other row
/// stays. A compaction writes nothing where no position was counted.
pub fn anchors_say_what_was_counted()
    ensures { WritesCounts }
{}

/// A legal journal grows by entries that are allowed in its state, and has begun no more jobs than it has entries.
pub fn journals_grow_by_entries()
    ensures { (fields : List Field) → GrowsByEntries fields }
{}

/// A value that is indexed is stored with the document tags of its items' numbers.
pub fn an_indexed_value_has_its_tags()
    ensures { StoresTags }
{}

/// A begin takes all rows for compaction aside, and captures the identifiers of all positions and no others, in rising
/// order, where nothing is parked; rows and documents stay.
pub fn a_fresh_begin_takes_all()
    ensures { FreshTakesAll }
{}

/// A field's current contention changes by a raise alone, to a greater one.
pub fn contentions_only_rise()
    ensures { OfEach RaisesAlone }
{}
