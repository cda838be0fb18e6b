//! Rows without a token.

ghost use Rattle.std.specs.Prelude.{◌≡◌};
ghost use Rattle.qe_protocol.specs.Jobs.{has_token, first_missing};

use qe_ecoc::{Ecoc, Entry};
use qe_tokens::FieldToken;

/// The field of the first row without a token.
pub(crate) fn missing_in(tokens: &[FieldToken], rows: &[Entry]) -> Option<u32>
    ensures { result ≡ first_missing tokens.now rows.now }
{
    for row in rows {
        if !has_token(tokens, row.field) {
            return Some(row.field);
        }
    }
    None
}

/// The field of the first row for compaction without a token.
pub(crate) fn missing_ahead(tokens: &[FieldToken], ecoc: &Ecoc) -> Option<u32>
    ensures { result ≡ first_missing tokens.now ecoc.now.rows }
{
    for place in 0..ecoc.len() {
        let row = ecoc.entry(place);
        if !has_token(tokens, row.field) {
            return Some(row.field);
        }
    }
    None
}

// Whether a token was sent for a field.
fn has_token(tokens: &[FieldToken], field: u32) -> bool
    ensures { result ≡ has_token tokens.now field }
{
    tokens.iter().any(|sent| sent.field == field)
}
