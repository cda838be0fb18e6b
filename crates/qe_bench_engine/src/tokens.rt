//! The tokens that a client would send of the values of two fields.

ghost use Rattle.std.specs.Prelude.{◌≤ℤ◌, pos};

use qe_ecoc::{Cipher, make_cipher};
use qe_find::FindEqual;
use qe_parts::EdgeTokens;
use qe_tokens::{
    EcocToken, EdcToken, EscToken, RootKey, ServerTokenLevel1, collections, ecoc, edc,
    edc_contention, edc_derived, esc, esc_contention, esc_derived, server_derived, server_token,
};

/// A field's tokens.
#[derive(Clone, Copy)]
pub struct FieldTokens {
    edc: EdcToken,
    esc: EscToken,
    server: ServerTokenLevel1,
    /// The token of its rows for compaction.
    pub ecoc: EcocToken,
}

/// The tokens of a field of this root key.
pub fn field_tokens(root: u8) -> FieldTokens {
    let root = RootKey([root; 32]);
    let level = collections(&root);
    FieldTokens {
        edc: edc(&level),
        esc: esc(&level),
        server: server_token(&root),
        ecoc: ecoc(&level),
    }
}

/// What is sent to insert an item, with no contention factor but 0.
pub fn insert_tokens(field: &FieldTokens, item: &[u8], leaf: Option<u8>) -> EdgeTokens {
    let d = edc_contention(&edc_derived(&field.edc, item), 0).0;
    let s = esc_contention(&esc_derived(&field.esc, item), 0).0;
    let l = server_derived(&field.server, item).0;
    let p = cipher(field, &s, leaf);
    EdgeTokens { d, s, l, p }
}

fn cipher(field: &FieldTokens, s: &[u8; 32], leaf: Option<u8>) -> Cipher {
    make_cipher(&field.ecoc, &[1; 16], s, leaf)
}

/// What is sent to find an item.
pub fn find_tokens(field: &FieldTokens, item: &[u8]) -> FindEqual
    ensures { pos 0 ≤ℤ result.cm }
{
    let d = edc_derived(&field.edc, item).0;
    let s = esc_derived(&field.esc, item).0;
    let l = server_derived(&field.server, item).0;
    FindEqual { d, s, l, cm: 0 }
}
