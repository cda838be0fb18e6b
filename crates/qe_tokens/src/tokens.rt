//! The tokens, each with libmongocrypt's name. There EDC is the collection of documents, ESC that of position and
//! anchor rows, and ECOC that of the rows which a compaction or cleanup reads.

ghost use Rattle.std.specs.Prelude.{◌≡◌};
ghost use Rattle.qe_tokens.specs.Tokens.{root_key_of, collections_of, server_token_of, server_cipher_of};
ghost use Rattle.qe_tokens.specs.Tokens.{edc_of, esc_of, ecoc_of, edc_derived_of, esc_derived_of, server_derived_of};
ghost use Rattle.qe_tokens.specs.Tokens.{edc_contention_of, esc_contention_of, edc_twice_of, esc_tag_of, esc_value_of};
ghost use Rattle.qe_tokens.specs.Tokens.{server_count_of, server_zeros_of};

use qe_seal::{hmac, prf1};

/// Bytes 64 to 95 of a data key. Libmongocrypt's `TokenKey`.
#[derive(Clone, Copy, Debug, PartialEq, Eq)]
pub struct RootKey(pub [u8; 32]);

/// The root of the collections' tokens. Libmongocrypt's `CollectionsLevel1Token`.
#[derive(Clone, Copy, Debug, PartialEq, Eq)]
pub struct CollectionsLevel1(pub [u8; 32]);

/// The root of the tokens of blocks. Libmongocrypt's `ServerTokenDerivationLevel1Token`.
#[derive(Clone, Copy, Debug, PartialEq, Eq)]
pub struct ServerTokenLevel1(pub [u8; 32]);

/// The key of the server-encrypted value. Libmongocrypt's `ServerDataEncryptionLevel1Token`.
#[derive(Clone, Copy, Debug, PartialEq, Eq)]
pub struct ServerDataLevel1(pub [u8; 32]);

/// The root of the tokens of documents. Libmongocrypt's `EDCToken`.
#[derive(Clone, Copy, Debug, PartialEq, Eq)]
pub struct EdcToken(pub [u8; 32]);

/// The root of the tokens of position and anchor rows. Libmongocrypt's `ESCToken`.
#[derive(Clone, Copy, Debug, PartialEq, Eq)]
pub struct EscToken(pub [u8; 32]);

/// The key of the rows that a compaction or cleanup reads. Libmongocrypt's `ECOCToken`.
#[derive(Clone, Copy, Debug, PartialEq, Eq)]
pub struct EcocToken(pub [u8; 32]);

/// An item's token of documents. Libmongocrypt's `EDCDerivedFromDataToken`.
#[derive(Clone, Copy, Debug, PartialEq, Eq)]
pub struct EdcDerived(pub [u8; 32]);

/// An item's token of rows. Libmongocrypt's `ESCDerivedFromDataToken`.
#[derive(Clone, Copy, Debug, PartialEq, Eq)]
pub struct EscDerived(pub [u8; 32]);

/// An item's token of documents under one contention factor.
/// Libmongocrypt's `EDCDerivedFromDataTokenAndContentionFactor`.
#[derive(Clone, Copy, Debug, PartialEq, Eq)]
pub struct EdcContention(pub [u8; 32]);

/// An item's token of rows under one contention factor.
/// Libmongocrypt's `ESCDerivedFromDataTokenAndContentionFactor`.
#[derive(Clone, Copy, Debug, PartialEq, Eq)]
pub struct EscContention(pub [u8; 32]);

/// The key of document tags. Libmongocrypt's `EDCTwiceDerivedToken`.
#[derive(Clone, Copy, Debug, PartialEq, Eq)]
pub struct EdcTwice(pub [u8; 32]);

/// The key of the identifiers of rows. Libmongocrypt's `ESCTwiceDerivedTagToken`.
#[derive(Clone, Copy, Debug, PartialEq, Eq)]
pub struct EscTag(pub [u8; 32]);

/// The key of the values of anchors. Libmongocrypt's `ESCTwiceDerivedValueToken`.
#[derive(Clone, Copy, Debug, PartialEq, Eq)]
pub struct EscValue(pub [u8; 32]);

/// An item's token of blocks. Libmongocrypt's `ServerDerivedFromDataToken`.
#[derive(Clone, Copy, Debug, PartialEq, Eq)]
pub struct ServerDerived(pub [u8; 32]);

/// The key of a block's count and contention factor.
/// Libmongocrypt's `ServerCountAndContentionFactorEncryptionToken`.
#[derive(Clone, Copy, Debug, PartialEq, Eq)]
pub struct ServerCount(pub [u8; 32]);

/// The key of a block's zeros. Libmongocrypt's `ServerZerosEncryptionToken`.
#[derive(Clone, Copy, Debug, PartialEq, Eq)]
pub struct ServerZeros(pub [u8; 32]);

/// The root of a data key, whose first 64 bytes are the keys of sealed values.
pub fn root_key(key: &[u8; 96]) -> RootKey
    ensures { result.0 ≡ root_key_of key.now }
{
    let mut root = [0u8; 32];
    root.copy_from_slice(&key[64..]);
    RootKey(root)
}

/// HMAC of the number 1 under the root key.
pub fn collections(root: &RootKey) -> CollectionsLevel1
    ensures { result.0 ≡ collections_of root.now.0 }
{
    CollectionsLevel1(prf1(&root.0, 1))
}

/// HMAC of the number 2 under the root key.
pub fn server_token(root: &RootKey) -> ServerTokenLevel1
    ensures { result.0 ≡ server_token_of root.now.0 }
{
    ServerTokenLevel1(prf1(&root.0, 2))
}

/// HMAC of the number 3 under the root key.
pub fn server_cipher(root: &RootKey) -> ServerDataLevel1
    ensures { result.0 ≡ server_cipher_of root.now.0 }
{
    ServerDataLevel1(prf1(&root.0, 3))
}

/// HMAC of the number 1 under the collections' root.
pub fn edc(level: &CollectionsLevel1) -> EdcToken
    ensures { result.0 ≡ edc_of level.now.0 }
{
    EdcToken(prf1(&level.0, 1))
}

/// HMAC of the number 2 under the collections' root.
pub fn esc(level: &CollectionsLevel1) -> EscToken
    ensures { result.0 ≡ esc_of level.now.0 }
{
    EscToken(prf1(&level.0, 2))
}

/// HMAC of the number 4 under the collections' root.
pub fn ecoc(level: &CollectionsLevel1) -> EcocToken
    ensures { result.0 ≡ ecoc_of level.now.0 }
{
    EcocToken(prf1(&level.0, 4))
}

/// HMAC of the item's bytes under the token.
pub fn edc_derived(token: &EdcToken, item: &[u8]) -> EdcDerived
    ensures { result.0 ≡ edc_derived_of token.now.0 item.now }
{
    EdcDerived(hmac(&token.0, item))
}

/// HMAC of the item's bytes under the token.
pub fn esc_derived(token: &EscToken, item: &[u8]) -> EscDerived
    ensures { result.0 ≡ esc_derived_of token.now.0 item.now }
{
    EscDerived(hmac(&token.0, item))
}

/// HMAC of the contention factor under the derived token.
pub fn edc_contention(derived: &EdcDerived, factor: u64) -> EdcContention
    ensures { result.0 ≡ edc_contention_of derived.now.0 factor }
{
    EdcContention(prf1(&derived.0, factor))
}

/// HMAC of the contention factor under the derived token.
pub fn esc_contention(derived: &EscDerived, factor: u64) -> EscContention
    ensures { result.0 ≡ esc_contention_of derived.now.0 factor }
{
    EscContention(prf1(&derived.0, factor))
}

/// HMAC of the number 1 under the token.
pub fn edc_twice(token: &EdcContention) -> EdcTwice
    ensures { result.0 ≡ edc_twice_of token.now.0 }
{
    EdcTwice(prf1(&token.0, 1))
}

/// HMAC of the number 1 under the token.
pub fn esc_tag(token: &EscContention) -> EscTag
    ensures { result.0 ≡ esc_tag_of token.now.0 }
{
    EscTag(prf1(&token.0, 1))
}

/// HMAC of the number 2 under the token.
pub fn esc_value(token: &EscContention) -> EscValue
    ensures { result.0 ≡ esc_value_of token.now.0 }
{
    EscValue(prf1(&token.0, 2))
}

/// HMAC of the item's bytes under the token.
pub fn server_derived(token: &ServerTokenLevel1, item: &[u8]) -> ServerDerived
    ensures { result.0 ≡ server_derived_of token.now.0 item.now }
{
    ServerDerived(hmac(&token.0, item))
}

/// HMAC of the number 1 under the token.
pub fn server_count(token: &ServerDerived) -> ServerCount
    ensures { result.0 ≡ server_count_of token.now.0 }
{
    ServerCount(prf1(&token.0, 1))
}

/// HMAC of the number 2 under the token.
pub fn server_zeros(token: &ServerDerived) -> ServerZeros
    ensures { result.0 ≡ server_zeros_of token.now.0 }
{
    ServerZeros(prf1(&token.0, 2))
}
