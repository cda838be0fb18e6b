//! Laws of schemas and of resolved commands: functions whose clauses are the laws.

ghost use Rattle.qe_schema.specs.Laws as laws;

/// A schema that was read has distinct paths and key ids, and contentions within their limits.
pub fn what_is_read_is_a_schema()
    ensures { laws.IsReadAsSchema }
{}

/// No field is found exactly where none has the path.
pub fn a_path_is_unknown_where_no_field_has_it()
    ensures { laws.IsUnknownWhereNone }
{}

/// The terms of a resolved filter are of fields that are searched so, and their values have the fields' types.
pub fn resolved_terms_are_the_fields()
    ensures { laws.TermsAreTheFields }
{}

/// The cells of a resolved document or set are of fields of the schema, in rising number, with values that these keep.
pub fn resolved_cells_are_the_fields()
    ensures { laws.CellsAreTheFields }
{}

/// An end of an interval that is given stands as it is, one that is missing is the domain's, and a value is both ends.
pub fn a_given_end_stands_and_a_missing_one_is_the_domains()
    ensures { laws.EndsAreTheGiven }
{}

/// A resolved command holds what the fields allow: field numbers rise, types are the fields', numbers of range fields in
/// documents and sets lie in the domains, ids are ids, and limits and contentions are within theirs.
pub fn a_resolved_command_holds_what_is_allowed()
    ensures { laws.HoldsWhatIsAllowed }
{}
