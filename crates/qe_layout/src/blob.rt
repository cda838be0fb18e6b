//! Blobs: one byte for the kind, and one document.

ghost use Rattle.std.specs.Prelude.{Result, IfOk};
ghost use Rattle.qe_layout.specs.Blobs.{IsBlob, alone, opened, read_under};
ghost use Rattle.qe_layout.specs.Refusal.{Refusal, Reads};
ghost use Rattle.std.specs.Prelude.{length};
ghost use Rattle.qe_document.specs.Spelling.{Begins};

use crate::malformed::{Kind, Malformed, refuse};
use qe_document::{BsonFault, Document, decode};
use std::alloc::Global;

/// The path of the whole.
const WHOLE: &str = ".";

/// The document of a blob of a kind.
pub fn open_blob(alloc: Global, kind: u8, blob: &[u8]) -> Result<Document, Malformed>
    ensures open { IfOk result (λ document. IsBlob kind document blob.now) }
    ensures exact { Reads result (opened kind blob.now) }
{
    let Some((first, rest)) = blob.split_first() else {
        return refuse(alloc, WHOLE, Kind::Empty);
    };
    if *first != kind {
        return refuse(alloc, WHOLE, Kind::BlobSubtype(*first));
    }
    only_document(alloc, rest)
}

/// The document of some bytes, with nothing after it.
pub fn only_document(alloc: Global, bytes: &[u8]) -> Result<Document, Malformed>
    ensures begins { IfOk result (λ document. Begins bytes.now document (length bytes.now)) }
    ensures exact { Reads result (alone bytes.now) }
{
    match decode(alloc, bytes) {
        Ok((document, used)) if used == bytes.len() => Ok(document),
        Ok((_, used)) => refuse(alloc, WHOLE, Kind::Trailing((bytes.len() - used) as u64)),
        Err(BsonFault::NoMemory) => Err(Malformed::NoMemory),
        Err(fault) => refuse(alloc, WHOLE, Kind::Bson(fault)),
    }
}

/// What was read of a blob that stands under a name: the path of the whole becomes the name alone.
pub fn under<T>(alloc: Global, name: &str, read: Result<T, Malformed>) -> Result<T, Malformed>
    ensures { (due : Result T Refusal) → Reads read due → Reads result (read_under name.now due) }
{
    match read {
        Ok(answer) => Ok(answer),
        Err(Malformed::At { path, kind }) if path.as_str() == WHOLE => refuse(alloc, name, kind),
        Err(Malformed::At { path, kind }) => match format!(in alloc; "{name}.{}", path.as_str()) {
            Ok(longer) => refuse(alloc, longer.as_str(), kind),
            Err(_) => Err(Malformed::NoMemory),
        },
        Err(Malformed::NoMemory) => Err(Malformed::NoMemory),
    }
}
