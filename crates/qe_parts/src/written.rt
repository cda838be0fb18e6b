//! Documents and blobs that are written.

ghost use Rattle.std.specs.Prelude.{◌≡◌, ◌∷◌, [], ◌++◌, false, OnOk, IfOk};
ghost use Rattle.qe_base.specs.Answers.{Answers};
ghost use Rattle.qe_document.specs.Faults.{encode_refusal};
ghost use Rattle.qe_document.specs.Names.{is_named};
ghost use Rattle.qe_document.specs.Spelling.{document_bytes, IsDocument};
ghost use Rattle.qe_document.specs.Views.{plain};
ghost use Rattle.qe_document.specs.Writing.{written_as};
ghost use Rattle.qe_value.specs.declared.value.Plain.TheVariants as p;
ghost use Rattle.qe_layout.specs.Blobs.{IsBlob};

use qe_base::{Bytes, NoMemory, Text};
use qe_document::{Document, EncodeFault, PushFault, Value, encode_behind};
use std::alloc::Global;

/// Adds an element of a new name at the end.
pub fn put(alloc: Global, document: &mut Document, name: &str, value: Value) -> Result<(), NoMemory>
    requires { is_named name.now document.old ≡ false }
    ensures { OnOk result (document.new ≡ document.old ++ (name.now, plain value) ∷ []) }
{
    let name = Text::of(alloc, name)?;
    match document.push(name, value) {
        Ok(()) => Ok(()),
        Err(PushFault::NoMemory) => Err(NoMemory),
        Err(PushFault::DuplicateName) => unreachable!(),
    }
}

/// Adds a binary of a new name at the end.
pub fn put_binary(
    alloc: Global,
    document: &mut Document,
    name: &str,
    subtype: u8,
    bytes: &[u8],
) -> Result<(), NoMemory>
    requires { is_named name.now document.old ≡ false }
    ensures { OnOk result (document.new ≡ document.old ++ (name.now, p.Binary subtype bytes.now) ∷ []) }
{
    let bytes = Bytes::from_slice(alloc, bytes)?;
    put(alloc, document, name, Value::Binary { subtype, bytes })
}

/// The blob of a kind that holds the document.
pub fn blob_of(alloc: Global, kind: u8, document: &Document) -> Result<Bytes, EncodeFault>
    ensures exact { Answers (λ blob. blob) encode_refusal result (written_as document.now (kind ∷ document_bytes document.now)) }
    ensures is { IfOk result (λ blob. IsBlob kind document.now blob) }
    ensures fits { IfOk result (λ _. IsDocument document.now) }
{
    encode_behind(alloc, kind, document)
}
