//! How many nonces the server takes for a command.

ghost use Rattle.std.specs.Prelude.{◌≡◌, length};
ghost use Rattle.qe_command.specs.Items.{items_of};
ghost use Rattle.qe_command.specs.Nonces.{at_most_64_bits, cell_nonces, cells_nonces, nonces_of};

use crate::{Command, SentCell};
use qe_payload::InsertPayload;

/// The number of nonces that the server takes for a command, 16 bytes each: for each encrypted value one for its
/// server-encrypted value and two for each block, and for a step one for each unit. Where it doesn't fit 64 bits, which
/// no command's does that was read, it is the greatest number of 64 bits. It takes no memory.
pub fn nonces_needed(command: &Command) -> usize
    ensures { result ≡ at_most_64_bits (nonces_of command.now) }
{
    match command {
        Command::Insert { cells, .. } => sum_of(cells.slice()),
        Command::Update { set, .. } => sum_of(set.slice()),
        Command::Step { limit, .. } => *limit as usize,
        _ => 0,
    }
}

fn sum_of(cells: &[(u32, SentCell)]) -> usize
    ensures { result ≡ at_most_64_bits (cells_nonces cells.now) }
{
    let mut sum: usize = 0;
    for (_, cell) in cells {
        sum = sum.saturating_add(of_cell(cell));
    }
    sum
}

fn of_cell(cell: &SentCell) -> usize
    ensures { result ≡ at_most_64_bits (cell_nonces cell.now) }
{
    match cell {
        SentCell::Plain(_) => 0,
        SentCell::Payload(payload) => item_count(payload).saturating_mul(2).saturating_add(1),
    }
}

fn item_count(payload: &InsertPayload) -> usize
    ensures { result ≡ length (items_of payload.now) }
{
    match &payload.g {
        Some(edges) => edges.len(),
        None => 1,
    }
}
