//! Tokens as elements of documents.

ghost use Rattle.std.specs.Prelude.{◌≡◌, ◌++◌, ◌∷◌, [], false, Ok};
ghost use Rattle.qe_base.specs.Answers.{Answers};
ghost use Rattle.qe_document.specs.Faults.{encode_refusal};
ghost use Rattle.qe_document.specs.Names.{is_named, Distinct};
ghost use Rattle.qe_value.specs.declared.value.Plain.TheVariants as p;
ghost use Rattle.qe_command_written.specs.Written.{token_elements};

use crate::cells::path_at;
use crate::elements::add;
use qe_base::{Bytes, bytes_of};
use qe_document::{Document, EncodeFault, Value};
use qe_field::Field;
use qe_parts::GENERIC;
use qe_tokens::FieldToken;
use std::alloc::Global;

// The document with a token behind its elements.
fn put_token(
    alloc: Global,
    document: Document,
    path: &str,
    token: &[u8; 32],
) -> Result<Document, EncodeFault>
    requires { is_named path.now document ≡ false }
    ensures exact { Answers (λ it. it) encode_refusal result (Ok (document ++ (path.now, p.Binary 0 token.now) ∷ [])) }
{
    let Ok(bytes) = Bytes::from_slice(alloc, bytes_of(token)) else {
        return Err(EncodeFault::NoMemory);
    };
    let value = Value::Binary {
        subtype: GENERIC,
        bytes,
    };
    add(alloc, document, path, value)
}

/// The document of the tokens of a begin.
pub(crate) fn token_document(
    alloc: Global,
    fields: &[Field],
    tokens: &[FieldToken],
) -> Result<Document, EncodeFault>
    requires { Distinct (token_elements fields.now tokens.now) }
    ensures { Answers (λ it. it) encode_refusal result (Ok (token_elements fields.now tokens.now)) }
{
    let mut document = Document::new(alloc);
    for token in tokens {
        document = put_token(
            alloc,
            document,
            path_at(fields, token.field),
            &token.token.0,
        )?;
    }
    Ok(document)
}
