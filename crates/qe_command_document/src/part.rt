//! What is read under the names of command documents.

use qe_base::JobKind;
use qe_command::{SentCell, SentCells, SentFilter};
use qe_document::Value;
use qe_tokens::TokenList;

/// What an element of a document of values is.
#[derive(Drop)]
pub enum CellPart {
    Id(Value),
    Cell(SentCell),
}

/// A document of values: its id and its cells.
#[derive(Drop)]
pub struct Doc {
    pub id: Value,
    pub cells: SentCells,
}

/// Which command a document is of.
#[derive(Clone, Copy)]
pub enum Op {
    Insert,
    Find,
    Update,
    Delete,
    Begin,
    Step,
    End,
    Abandon,
    Raise,
}

/// What an element of a command document is.
#[derive(Drop)]
pub enum Part {
    /// The command's name, which is read before.
    Op,
    Doc(Doc),
    Set(SentCells),
    Filter(SentFilter),
    Ids(bool),
    Kind(JobKind),
    Tokens(TokenList),
    Number(u64),
    Limit(u32),
    Field(u32),
}
