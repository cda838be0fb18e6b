//! What holds of commands that fit, as the contract of a function that does nothing.

ghost use Rattle.qe_command_fits.specs.Sizes.{FittingIsOfSchema};

/// A command that fits a schema has cells, terms and tokens of the schema's fields, of their kinds and in their order, with
/// numbers within their bounds; it needs at most 65,536 nonces.
pub fn what_fits_is_of_its_schema()
    ensures { FittingIsOfSchema }
{}
