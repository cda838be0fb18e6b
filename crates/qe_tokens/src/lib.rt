//! The token tree of Queryable Encryption, and the identifiers of rows and tags that grow from it.
//!
//! ```
//! let level = collections(&root_key(&data_key));
//! let contention = esc_contention(&esc_derived(&esc(&level), &item), 0);
//! let id = position_id(&esc_tag(&contention), 1); // of the row that the item's first insert adds
//! ```
//!
//! Each call but `root_key` is one HMAC, equal to its line of `specs/Tokens.antt`, and takes no memory. Words and labels say what
//! an identifier stands for. Read: tokens, identifiers, words.
#![tactic(auto)]

mod identifiers;
mod tokens;
mod words;

pub use identifiers::{anchor_id, document_tag, null_id, position_id};
pub use tokens::{
    CollectionsLevel1, EcocToken, EdcContention, EdcDerived, EdcToken, EdcTwice, EscContention,
    EscDerived, EscTag, EscToken, EscValue, RootKey, ServerCount, ServerDataLevel1, ServerDerived,
    ServerTokenLevel1, ServerZeros, collections, ecoc, edc, edc_contention, edc_derived, edc_twice,
    esc, esc_contention, esc_derived, esc_tag, esc_value, root_key, server_cipher, server_count,
    server_derived, server_token, server_zeros,
};
pub use words::{FieldToken, Label, LabelKind, TokenList, Word, Words};
