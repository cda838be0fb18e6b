//! What the census takes from an outcome.

ghost use Rattle.std.specs.Prelude.{◌≡◌};
ghost use Rattle.qe_encodes.specs.Counted.{is_accepted as accepted_by};

use qe_protocol::Outcome;

/// Whether values were stored.
pub(crate) fn is_accepted(outcome: Outcome) -> bool
    ensures { result ≡ accepted_by outcome }
{
    match outcome {
        Outcome::Inserted => true,
        Outcome::Updated(count) => count != 0,
        _ => false,
    }
}
