//! Documents that come in pieces.

ghost use Rattle.std.specs.Prelude.{◌≡◌, ℕ, List, [], ◌++◌, length, Option, None, IsTrue, ◌↔◌};
ghost use Rattle.qe_value.specs.declared.fault.BsonKind.TheVariants.{Short};
ghost use Rattle.qe_value.specs.declared.fault.BsonFault.{BsonFault};
ghost use Rattle.qe_value.specs.declared.fault.BsonFault.TheVariants.{At};
ghost use Rattle.qe_document.specs.Reading.{document_at};
ghost use Rattle.qe_bson_stream.specs.Runs.{Fields, State, Runs, joined, Begin_with, Ends};
ghost use Rattle.qe_bson_stream.specs.Stream.{IsShort, Takes, Feeds, Finishes};

use qe_document::{BsonFault, BsonKind, Document, decode};
use std::alloc::Global;
use std::marker::Model;

/// Reads documents one after the other from bytes that come in any pieces.
#[derive(Drop)]
pub struct Reader {
    alloc: Global,
    held: Vec<u8>,
    fault: Option<BsonFault>,
}

impl Model for Reader {
    ghost use Rattle.std.specs.Prelude.{ℕ, List, Option};
    ghost use Rattle.qe_value.specs.declared.fault.BsonFault.{BsonFault};

    ghost Value = { List ℕ × Option BsonFault };

    ghost use Rattle.qe_value.specs.contracts.fault.BsonFault as e;
    ghost use Rattle.std.specs.Coded.{codes};

    ghost coded = { Prim.hlevel (codes, e.the_row.coded) };

    ghost view = { λ r. (r.held.items, r.fault) };

    ghost use Rattle.qe_bson_stream.specs.Runs.{Fields, State, Runs, joined, Begin_with, Ends};
    ghost use Rattle.qe_bson_stream.specs.Stream.{IsWaiting};

    ghost invariant = { λ r. IsWaiting (r.held.items, r.fault) };
}

// Whether more bytes may mend the fault.
fn is_short(fault: BsonFault) -> bool
    ensures { IsTrue result ↔ ((place : ℕ) × (fault ≡ At place Short)) }
{
    match fault {
        BsonFault::At { kind, .. } => kind == BsonKind::Short,
        BsonFault::NoMemory => false,
    }
}

// Takes a piece where nothing is held: a whole document is read where it lies.
fn take_first(
    alloc: Global,
    held: &mut Vec<u8>,
    piece: &[u8],
) -> Result<Option<(Document, usize)>, BsonFault>
    requires { held.old.items ≡ [] }
    ensures { Takes held.old.items piece.now held.new.items result }
{
    match decode(alloc, piece) {
        Ok(read) => Ok(Some(read)),
        Err(fault) => {
            if !is_short(fault) {
                return Err(fault);
            }
            held.extend_from_slice(piece)?;
            Ok(None)
        }
    }
}

// Takes a piece behind what is held.
fn take_more(
    alloc: Global,
    held: &mut Vec<u8>,
    piece: &[u8],
) -> Result<Option<(Document, usize)>, BsonFault>
    requires { IsShort held.old.items }
    ensures { Takes held.old.items piece.now held.new.items result }
{
    let before = held.len();
    held.extend_from_slice(piece)?;
    match decode(alloc, held) {
        Ok((document, n)) => {
            held.clear();
            Ok(Some((document, n - before)))
        }
        Err(fault) => {
            if !is_short(fault) {
                return Err(fault);
            }
            Ok(None)
        }
    }
}

fn take_piece(
    alloc: Global,
    held: &mut Vec<u8>,
    piece: &[u8],
) -> Result<Option<(Document, usize)>, BsonFault>
    requires { IsShort held.old.items }
    ensures { Takes held.old.items piece.now held.new.items result }
{
    if held.is_empty() {
        take_first(alloc, held, piece)
    } else {
        take_more(alloc, held, piece)
    }
}

impl Reader {
    /// A reader at the beginning of a document.
    pub fn new(alloc: Global) -> Reader
        ensures { result ≡ ([], None) }
    {
        Reader {
            alloc,
            held: Vec::new(alloc),
            fault: None,
        }
    }

    /// How many bytes it holds of a document that isn't whole. It takes no memory.
    pub fn held(&self) -> usize
        ensures { result ≡ length self.now.0 }
    {
        self.held.len()
    }

    /// Takes a piece. It answers the document that is whole now, if there is one, and how many bytes of the piece it
    /// used; the reader then begins anew behind them. After a fault it answers that fault again.
    pub fn feed(&mut self, piece: &[u8]) -> Result<Option<(Document, usize)>, BsonFault>
        ensures { Feeds self.old self.new piece.now result }
    {
        if let Some(fault) = self.fault {
            return Err(fault);
        }
        match take_piece(self.alloc, &mut self.held, piece) {
            Ok(read) => Ok(read),
            Err(fault) => {
                self.fault = Some(fault);
                Err(fault)
            }
        }
    }

    /// Ends the reading. A document that was begun and isn't whole is Short behind the bytes given of it.
    pub fn finish(self) -> Result<(), BsonFault>
        ensures { Finishes self result }
    {
        if let Some(fault) = self.fault {
            return Err(fault);
        }
        if !self.held.is_empty() {
            return Err(BsonFault::At {
                place: self.held.len(),
                kind: BsonKind::Short,
            });
        }
        Ok(())
    }
}

/// What bytes decide, a document or a fault, stays decided whatever bytes follow.
pub fn more_bytes_leave_what_is_decided()
    ensures { (front more : List ℕ) → ¬ IsShort front → document_at (front ++ more) ≡ document_at front }
{}

/// However a stream is cut into pieces: a new reader that is fed them one after another, and again what is left of each,
/// gives the documents that `decode` gives of the whole, one after another, up to its first fault, and holds what is left.
pub fn a_cut_stream_gives_the_documents_of_the_whole()
    ensures { (pieces : List (List ℕ)) (documents : List Fields) (stop : Option BsonFault) (to : State)
        → Runs ([], None) to pieces documents stop
        → (rest : List ℕ) × Begin_with (joined pieces) documents rest × Ends rest stop to }
{}
