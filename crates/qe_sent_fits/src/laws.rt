//! Laws of what is sent, as contracts of functions that do nothing.

ghost use Rattle.qe_sent_fits.specs.Laws.{CountedIsEnough};

use crate::schema::are_keyed;
use qe_schema::Schema;

/// The document of a command that is sent for a plain one has no more bytes than were counted over the plain one.
pub fn counted_lengths_are_enough(schema: &Schema)
    ensures { CountedIsEnough schema.now }
{
    are_keyed(schema.fields());
}
