//! The identifiers of a token's rows, and the values of its anchors.

ghost use Rattle.std.specs.Prelude.{◌≡◌};
ghost use Rattle.qe_esc.specs.Identifiers.{id_of};
ghost use Rattle.qe_esc.specs.Pairs.{null_value, anchor_value, opened_pair};

use qe_seal::{HmacKey, decipher_pair, encipher_pair};
use qe_tokens::{EscContention, esc_tag, esc_value};
use std::marker::Model;

/// Which of a token's rows.
#[derive(Clone, Copy, Debug, PartialEq, Eq)]
pub enum RowKind {
    /// A row for each time that the word was indexed, from 1.
    Position,
    /// A row that a compaction leaves, from 1; 0 is the null anchor, which a cleanup leaves.
    Anchor,
}

/// A token with the key of its identifiers, hashed once for all of them. Contracts see the token's bytes.
#[derive(Drop)]
pub struct RowKey {
    token: EscContention,
    ids: HmacKey,
}

impl Model for RowKey {
    ghost use Rattle.std.specs.Prelude.{ℕ, List};
    ghost use Rattle.qe_seal.specs.HmacKey.{IsKeyedBy};
    ghost use Rattle.qe_tokens.specs.Tokens.{esc_tag_of};

    ghost Value = { List ℕ };

    ghost view = { λ key. key.token.0 };

    ghost invariant = { λ key. IsKeyedBy key.ids (esc_tag_of key.token.0) };
}

impl RowKey {
    /// Derives the key.
    pub fn new(token: &EscContention) -> RowKey
        ensures { result ≡ token.now.0 }
    {
        RowKey {
            token: *token,
            ids: HmacKey::new(&esc_tag(token).0),
        }
    }

    /// The identifier of the row of this number.
    pub fn id(&self, kind: RowKind, number: u64) -> [u8; 32]
        ensures { result ≡ id_of kind self.now number }
    {
        match kind {
            RowKind::Position => self.ids.prf1(number),
            RowKind::Anchor => self.ids.prf2(0, number),
        }
    }

    /// The value of the null anchor: how many anchors a cleanup has taken out, and how many positions are counted.
    pub fn null_value(&self, iv: &[u8; 16], apos: u64, cpos: u64) -> [u8; 32]
        ensures { result ≡ null_value self.now iv.now apos cpos }
    {
        encipher_pair(&esc_value(&self.token).0, iv, apos, cpos)
    }

    /// The value of another anchor: how many positions are counted.
    pub fn anchor_value(&self, iv: &[u8; 16], cpos: u64) -> [u8; 32]
        ensures { result ≡ anchor_value self.now iv.now cpos }
    {
        self.null_value(iv, 0, cpos)
    }

    /// The two numbers in an anchor's value.
    pub fn open(&self, value: &[u8; 32]) -> (u64, u64)
        ensures { result ≡ opened_pair self.now value.now }
    {
        decipher_pair(&esc_value(&self.token).0, value)
    }
}
