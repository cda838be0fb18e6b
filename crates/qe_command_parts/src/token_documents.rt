//! Documents with a token for each encrypted field.

ghost use Rattle.std.specs.Prelude.{◌≡◌, ◌≤◌, ◌++◌, length, IfOk, OnOk};
ghost use Rattle.qe_document.specs.Names.{Distinct};
ghost use Rattle.qe_document.specs.Views.{plain};
ghost use Rattle.qe_layout.specs.Refusal.{Reads};
ghost use Rattle.qe_command_parts.specs.Fields.{field_rows};
ghost use Rattle.qe_command_parts.specs.TokenDocuments as documents;

use crate::fields::encrypted;
use qe_base::NoMemory;
use qe_document::{Document, Value};
use qe_field::{Field, is_reserved};
use qe_layout::{Kind, Layout, Malformed, Slots, arrange, fixed, refuse};
use qe_tokens::{EcocToken, FieldToken, TokenList};
use std::alloc::Global;

// The layout of a begin's tokens.
#[derive(Clone, Copy)]
struct TokenLayout<'a> {
    fields: &'a [Field],
}

impl<'a> Layout for TokenLayout<'a> {
    ghost use Rattle.std.specs.Prelude.{◌≤◌, length};
    ghost use Rattle.qe_command_parts.specs.Fields.{field_rows};
    ghost use Rattle.qe_command_parts.specs.TokenDocuments.{token_reads};

    type Part = [u8; 32];

    ghost reads = { λ it. token_reads it.fields.now };

    ghost rows = { λ it. field_rows it.fields.now };

    ghost fits = { λ it. length it.fields.now ≤ 64 };

    #[tactic(auto, unfolding(crate::specs::TokenDocuments::token_reads))]
    fn read(&self, alloc: Global, name: &str, value: Value) -> Result<[u8; 32], Malformed> {
        if is_reserved(name) {
            return refuse(alloc, name, Kind::ReservedName);
        }
        encrypted(alloc, self.fields, name, name)?;
        fixed(alloc, name, value, 0)
    }

    fn count(&self) -> usize {
        self.fields.len()
    }

    fn row(&self, place: usize) -> (&str, Option<Kind>) {
        (self.fields[place].path.as_str(), None)
    }
}

// The tokens in the slots of so many fields.
fn tokens_in(alloc: Global, count: usize, mut slots: Slots<[u8; 32]>) -> Result<TokenList, NoMemory>
    requires few { count ≤ 64 }
    requires slots { length slots ≡ count }
    ensures { IfOk result (λ tokens. tokens ≡ documents.tokens_from 0 slots) }
{
    let mut tokens = TokenList::new(alloc);
    for i in 0..count {
        let slot = slots.take(i);
        put_token(&mut tokens, i as u32, slot)?;
    }
    Ok(tokens)
}

// Adds the token in a field's slot, if there is one.
fn put_token(tokens: &mut TokenList, field: u32, slot: Option<[u8; 32]>) -> Result<(), NoMemory>
    ensures { OnOk result (tokens.new ≡ tokens.old ++ documents.token_at field slot) }
{
    match slot {
        Some(token) => tokens.push(FieldToken {
            field,
            token: EcocToken(token),
        }),
        None => Ok(()),
    }
}

/// The tokens that a begin sends, 32 bytes each under its encrypted field's path, in the schema's order.
#[tactic(auto, unfolding(crate::specs::TokenDocuments::tokens_of))]
pub fn tokens(alloc: Global, fields: &[Field], document: Document) -> Result<TokenList, Malformed>
    requires few { length fields.now ≤ 64 }
    requires apart { Distinct (field_rows fields.now) }
    ensures { Reads result (documents.tokens_of fields.now document) }
{
    let slots = arrange(alloc, &TokenLayout { fields }, document)?;
    let tokens = tokens_in(alloc, fields.len(), slots)?;
    Ok(tokens)
}
