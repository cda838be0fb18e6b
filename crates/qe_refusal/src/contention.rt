//! Each field's current contention, and what is refused by it.

ghost use Rattle.std.specs.Prelude.{◌≡◌, nat_abs};
ghost use Rattle.qe_protocol.specs.Contention as contention;

use qe_protocol::{Command, Reply, SentCell, SentTerm};

/// A field's current contention, by its number; 0 for a plain field, and where there is no field. It takes no memory.
pub fn current_of(current: &[u64], field: u32) -> u64
    ensures { result ≡ contention.current_of current.now field }
{
    match current.get(field as usize) {
        Some(number) => *number,
        None => 0,
    }
}

// Why a term is refused, if it is: it asks for fewer factors than are in use.
fn below_at(current: &[u64], field: u32, most: i64) -> Option<Reply>
    ensures { result ≡ contention.below_at current.now field (nat_abs most) }
{
    let got = most.unsigned_abs();
    let current = current_of(current, field);
    if got < current {
        return Some(Reply::ContentionBelow {
            field,
            got,
            current,
        });
    }
    None
}

// The same of any term.
fn term_below(current: &[u64], term: &SentTerm) -> Option<Reply>
    ensures { result ≡ contention.term_below current.now term.now }
{
    match term {
        SentTerm::Id(_) => None,
        SentTerm::Equal { field, payload } => below_at(current, *field, payload.cm),
        SentTerm::Range { field, payload } => below_at(current, *field, payload.cm),
    }
}

// The same of the first such term of a filter.
fn filter_below(current: &[u64], terms: &[SentTerm]) -> Option<Reply>
    ensures { result ≡ contention.filter_below current.now terms.now }
{
    for term in terms {
        if let Some(reply) = term_below(current, term) {
            return Some(reply);
        }
    }
    None
}

// Why a cell is refused, if it is: its factor is above those in use.
fn cell_over(current: &[u64], field: u32, cell: &SentCell) -> Option<Reply>
    ensures { result ≡ contention.cell_over current.now field cell.now }
{
    let SentCell::Payload(payload) = cell else {
        return None;
    };
    let got = payload.k.unsigned_abs();
    let current = current_of(current, field);
    if current < got {
        return Some(Reply::ContentionOver {
            field,
            got,
            current,
        });
    }
    None
}

// The same of the first such cell of a command.
fn cells_over(current: &[u64], cells: &[(u32, SentCell)]) -> Option<Reply>
    ensures { result ≡ contention.cells_over current.now cells.now }
{
    for (field, cell) in cells {
        if let Some(reply) = cell_over(current, *field, cell) {
            return Some(reply);
        }
    }
    None
}

/// Why a command is refused before all else, if it is: the first term of its filter that asks for too few factors, or else
/// the first of its values whose factor is too great. It takes no memory.
pub fn refusal(current: &[u64], command: &Command) -> Option<Reply>
    ensures { result ≡ contention.refusal current.now command.now }
{
    match command {
        Command::Insert { cells, .. } => cells_over(current, cells.slice()),
        Command::Find { filter, .. } => filter_below(current, filter.slice()),
        Command::Update { filter, set } => match filter_below(current, filter.slice()) {
            Some(reply) => Some(reply),
            None => cells_over(current, set.slice()),
        },
        Command::Delete { filter } => filter_below(current, filter.slice()),
        _ => None,
    }
}
