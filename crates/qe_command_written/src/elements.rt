//! Elements behind those of a document.

ghost use Rattle.std.specs.Prelude.{◌≡◌, ◌++◌, ◌∷◌, [], false, Ok};
ghost use Rattle.qe_base.specs.Answers.{Answers};
ghost use Rattle.qe_document.specs.Faults.{encode_refusal};
ghost use Rattle.qe_document.specs.Names.{is_named};
ghost use Rattle.qe_document.specs.Views.{plain};

use qe_document::{Document, EncodeFault, Value};
use qe_parts::put;
use std::alloc::Global;

/// The document with an element of a new name behind the others.
pub(crate) fn add(
    alloc: Global,
    mut document: Document,
    name: &str,
    value: Value,
) -> Result<Document, EncodeFault>
    requires { is_named name.now document ≡ false }
    ensures exact { Answers (λ it. it) encode_refusal result (Ok (document ++ (name.now, plain value) ∷ [])) }
{
    let Ok(()) = put(alloc, &mut document, name, value) else {
        return Err(EncodeFault::NoMemory);
    };
    Ok(document)
}
