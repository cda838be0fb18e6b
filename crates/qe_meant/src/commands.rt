//! The values of commands.

ghost use Rattle.std.specs.Prelude.{All};
ghost use Rattle.qe_meant.specs.Held.{IsHeldCell, IsHeldCommand, IsHeldTerm};

use crate::values::carried;
use qe_plain::{PlainCell, PlainCommand, Term};

fn cell_held(cell: &PlainCell)
    ensures { IsHeldCell cell.now }
{
    carried(&cell.value);
}

fn cells_held(cells: &[PlainCell])
    ensures { All IsHeldCell cells.now }
{
    for cell in cells {
        cell_held(cell);
    }
}

fn term_held(term: &Term)
    ensures { IsHeldTerm term.now }
{
    match term {
        Term::Id(value) => carried(value),
        Term::Equal { .. } | Term::Between { .. } => {}
    }
}

fn terms_held(terms: &[Term])
    ensures { All IsHeldTerm terms.now }
{
    for term in terms {
        term_held(term);
    }
}

/// A command's values are of their types.
pub(crate) fn command_held(command: &PlainCommand)
    ensures { IsHeldCommand command.now }
{
    match command {
        PlainCommand::Insert { doc } => {
            carried(&doc.id);
            cells_held(doc.cells.slice());
        }
        PlainCommand::Find { filter, .. } => terms_held(filter.slice()),
        PlainCommand::Update { filter, set } => {
            terms_held(filter.slice());
            cells_held(set.slice());
        }
        PlainCommand::Delete { filter } => terms_held(filter.slice()),
        PlainCommand::Begin { .. }
        | PlainCommand::Step { .. }
        | PlainCommand::End { .. }
        | PlainCommand::Abandon { .. }
        | PlainCommand::Raise { .. } => {}
    }
}
