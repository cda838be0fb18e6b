//! Covers of the intervals of a command.

ghost use Rattle.std.specs.Prelude.{◌≤◌, All, length, IfOk};
ghost use Rattle.qe_edges.specs.Prefixes.{most_of_cover};
ghost use Rattle.qe_encodes.specs.Items.{cover_in};
ghost use Rattle.qe_sent_fits.specs.Covers.{HasShortCover, HasShortCovers};

use qe_base::NoMemory;
use qe_field::{Field, FieldKind};
use qe_plain::{PlainCommand, Term};
use std::alloc::Global;

// The cover of an interval is made, since that no cover is longer is a clause of the call.
fn cover_is_short(alloc: Global, kind: &FieldKind, lo: i64, hi: i64) -> Result<(), NoMemory>
    ensures { IfOk result (λ _. length (cover_in kind.now lo hi) ≤ most_of_cover) }
{
    if let FieldKind::Range { domain, .. } = kind {
        let _cover = domain.cover(alloc, lo, hi)?;
    }
    Ok(())
}

fn term_is_short(alloc: Global, fields: &[Field], term: &Term) -> Result<(), NoMemory>
    ensures { IfOk result (λ _. HasShortCover fields.now term.now) }
{
    let Term::Between { field, lo, hi } = term else {
        return Ok(());
    };
    match fields.get(*field as usize) {
        Some(field) => cover_is_short(alloc, &field.kind, *lo, *hi),
        None => Ok(()),
    }
}

fn terms_are_short(alloc: Global, fields: &[Field], terms: &[Term]) -> Result<(), NoMemory>
    ensures { IfOk result (λ _. All (HasShortCover fields.now) terms.now) }
{
    for term in terms {
        term_is_short(alloc, fields, term)?;
    }
    Ok(())
}

/// The intervals of a command have covers that payloads may hold, as those of every domain do.
pub(crate) fn covers_are_short(
    alloc: Global,
    fields: &[Field],
    plain: &PlainCommand,
) -> Result<(), NoMemory>
    ensures { IfOk result (λ _. HasShortCovers fields.now plain.now) }
{
    match plain {
        PlainCommand::Find { filter, .. } => terms_are_short(alloc, fields, filter.slice()),
        PlainCommand::Update { filter, .. } => terms_are_short(alloc, fields, filter.slice()),
        PlainCommand::Delete { filter } => terms_are_short(alloc, fields, filter.slice()),
        _ => Ok(()),
    }
}
