//! The parts of a command, and what their types tell of them.

ghost use Rattle.std.specs.Prelude.{◌≡◌, All, length, FitsSigned};
ghost use Rattle.std.specs.Int.{w32, w64};
ghost use Rattle.qe_base.specs.Bytes.{AreBytes};
ghost use Rattle.qe_held.specs.Held.{AreHeldCells, AreHeldEdges, AreHeldTokens, IsHeldCell, IsHeldCipher, IsHeldCommand, IsHeldEdge, IsHeldEqual, IsHeldFindEdge, IsHeldInsert, IsHeldRange, IsHeldTerm, IsToken};

use crate::values::{are_bytes, value_held};
use qe_command::{Command, SentCell, SentTerm};
use qe_ecoc::Cipher;
use qe_find::{FindEqual, FindRange};
use qe_insert::InsertPayload;
use qe_parts::{EdgeList, EdgeTokens, FindEdge};
use qe_tokens::FieldToken;

fn is_token(token: &[u8; 32])
    ensures { IsToken token.now }
{
    are_bytes(token);
}

fn is_key_id(id: &[u8; 16])
    ensures long { length id.now ≡ 16 }
    ensures bytes { AreBytes id.now }
{
    are_bytes(id);
}

fn is_cipher(cipher: &Cipher)
    ensures { IsHeldCipher cipher.now }
{
    are_bytes(cipher.bytes());
}

fn fits_32(number: &i32)
    ensures { FitsSigned w32 number.now }
{
    let _number = *number;
}

fn fits_64(number: &i64)
    ensures { FitsSigned w64 number.now }
{
    let _number = *number;
}

fn edge_held(edge: &EdgeTokens)
    ensures { IsHeldEdge edge.now }
{
    is_token(&edge.d);
    is_token(&edge.s);
    is_token(&edge.l);
    is_cipher(&edge.p);
}

fn edges_held(edges: &[EdgeTokens])
    ensures { All IsHeldEdge edges.now }
{
    for edge in edges {
        edge_held(edge);
    }
}

fn own_edges(edges: &Option<EdgeList>)
    ensures { AreHeldEdges edges.now }
{
    match edges {
        None => {}
        Some(edges) => edges_held(edges.slice()),
    }
}

fn insert_held(payload: &InsertPayload)
    ensures { IsHeldInsert payload.now }
{
    is_token(&payload.d);
    is_token(&payload.s);
    is_token(&payload.e);
    is_token(&payload.l);
    is_cipher(&payload.p);
    is_key_id(&payload.u);
    are_bytes(payload.v.slice());
    fits_32(&payload.t);
    fits_64(&payload.k);
    own_edges(&payload.g);
}

fn cell_held(cell: &SentCell)
    ensures { IsHeldCell cell.now }
{
    match cell {
        SentCell::Plain(value) => value_held(value),
        SentCell::Payload(payload) => insert_held(payload),
    }
}

fn cells_held(cells: &[(u32, SentCell)])
    ensures { AreHeldCells cells.now }
{
    for (_, cell) in cells {
        cell_held(cell);
    }
}

fn find_edge_held(edge: &FindEdge)
    ensures { IsHeldFindEdge edge.now }
{
    is_token(&edge.d);
    is_token(&edge.s);
    is_token(&edge.l);
}

fn find_edges_held(edges: &[FindEdge])
    ensures { All IsHeldFindEdge edges.now }
{
    for edge in edges {
        find_edge_held(edge);
    }
}

fn equal_held(payload: &FindEqual)
    ensures { IsHeldEqual payload.now }
{
    is_token(&payload.d);
    is_token(&payload.s);
    is_token(&payload.l);
    fits_64(&payload.cm);
}

fn range_held(payload: &FindRange)
    ensures { IsHeldRange payload.now }
{
    find_edges_held(payload.g.slice());
    fits_64(&payload.cm);
    fits_32(&payload.payload_id);
}

fn term_held(term: &SentTerm)
    ensures { IsHeldTerm term.now }
{
    match term {
        SentTerm::Id(id) => value_held(id),
        SentTerm::Equal { payload, .. } => equal_held(payload),
        SentTerm::Range { payload, .. } => range_held(payload),
    }
}

fn terms_held(terms: &[SentTerm])
    ensures { All IsHeldTerm terms.now }
{
    for term in terms {
        term_held(term);
    }
}

fn token_held(token: &FieldToken)
    ensures { IsToken token.now.token.0 }
{
    is_token(&token.token.0);
}

fn tokens_held(tokens: &[FieldToken])
    ensures { AreHeldTokens tokens.now }
{
    for token in tokens {
        token_held(token);
    }
}

/// A command's parts are of their types.
pub fn command_held(command: &Command)
    ensures { IsHeldCommand command.now }
{
    match command {
        Command::Insert { id, cells } => {
            value_held(id);
            cells_held(cells.slice());
        }
        Command::Find { filter, .. } => terms_held(filter.slice()),
        Command::Update { filter, set } => {
            terms_held(filter.slice());
            cells_held(set.slice());
        }
        Command::Delete { filter } => terms_held(filter.slice()),
        Command::Begin { tokens, .. } => tokens_held(tokens.slice()),
        Command::Step { .. }
        | Command::End { .. }
        | Command::Abandon { .. }
        | Command::Raise { .. } => {}
    }
}
