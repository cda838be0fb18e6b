//! The keys of a schema's encrypted fields, with what grows from them made once.

ghost use Rattle.std.specs.Prelude.{◌≡◌, ◌<◌, ◌++◌, [], true, length, slice_index_or, IfOk};
ghost use Rattle.qe_field.specs.Lookup.{encrypted_numbers as numbers_of, is_encrypted as is_kept_secret};
ghost use Rattle.qe_encodes.specs.Fields.{kind_at as kind_under};
ghost use Rattle.qe_encodes.specs.Payloads.{find_tokens, item_tokens, ecoc_token, cipher_token, seal_of};
ghost use Rattle.qe_labels.specs.Under.{key_of};

use qe_base::{Bytes, Listing, NoMemory, bytes_of};
use qe_ecoc::make_cipher;
use qe_field::{Field, FieldKind, is_encrypted};
use qe_parts::{EdgeTokens, FindEdge};
use qe_schema::{Keys, Schema};
use qe_seal::{HmacKey, seal};
use qe_tokens::{
    EcocToken, EdcDerived, EscDerived, ServerDataLevel1, collections, ecoc, edc, edc_contention,
    esc, esc_contention, root_key, server_cipher, server_token,
};
use std::alloc::Global;
use std::marker::Model;

/// A field's data key, with the keys of HMAC and the tokens that grow from it. Contracts see the data key.
#[derive(Drop)]
pub struct FieldKey {
    key: [u8; 96],
    edc: HmacKey,
    esc: HmacKey,
    server: HmacKey,
    cipher: ServerDataLevel1,
    ecoc: EcocToken,
}

impl Model for FieldKey {
    ghost use Rattle.std.specs.Prelude.{ℕ, List};
    ghost use Rattle.qe_keyring.specs.Keyrings.{IsGrown};

    ghost Value = { List ℕ };

    ghost view = { λ k. k.key };

    ghost invariant = { λ k. IsGrown k.key k.edc k.esc k.server k.cipher.0 k.ecoc.0 };
}

impl FieldKey {
    // Derives the tokens.
    fn new(key: &[u8; 96]) -> FieldKey
        ensures { result ≡ key.now }
    {
        let root = root_key(key);
        let level = collections(&root);
        FieldKey {
            key: *key,
            edc: HmacKey::new(&edc(&level).0),
            esc: HmacKey::new(&esc(&level).0),
            server: HmacKey::new(&server_token(&root).0),
            cipher: server_cipher(&root),
            ecoc: ecoc(&level),
        }
    }
}

/// A schema, and a key for each of its encrypted fields.
#[derive(Drop)]
pub struct Keyring {
    schema: Schema,
    keys: Listing<FieldKey>,
}

impl Model for Keyring {
    ghost use Rattle.qe_labels.specs.Under.{Under};

    ghost Value = { Under };

    ghost use Rattle.std.specs.Prelude.{◌≡◌, length};
    ghost use Rattle.qe_field.specs.Lookup.{encrypted_numbers};

    ghost view = { λ k. record { schema = k.schema; keys = k.keys } };

    ghost invariant = { λ k. length k.keys ≡ length (encrypted_numbers k.schema) };
}

// How the field of a number is kept.
pub(crate) fn kind_at(fields: &[Field], number: u32) -> FieldKind
    ensures { result ≡ kind_under fields.now number }
{
    match fields.get(number as usize) {
        Some(field) => field.kind,
        None => FieldKind::Plain,
    }
}

// How many fields are encrypted.
fn encrypted_count(fields: &[Field]) -> usize
    ensures { result ≡ length (numbers_of fields.now) }
{
    let mut count = 0;
    for field in fields {
        if is_encrypted(&field.kind) {
            count += 1;
        }
    }
    count
}

// The key at a place.
fn key_at(keys: &[FieldKey], place: usize) -> &FieldKey
    requires { place < length keys.now }
    ensures { result.now ≡ slice_index_or keys.now place [] }
{
    &keys[place]
}

// The keys, each with what grows from it.
fn grown(alloc: Global, keys: &Keys) -> Result<Listing<FieldKey>, NoMemory>
    ensures { IfOk result (λ grown. grown ≡ keys.now) }
{
    let mut grown = Listing::new(alloc);
    for place in 0..keys.len() {
        grown.push(FieldKey::new(keys.key(place)))?;
    }
    Ok(grown)
}

impl Keyring {
    /// A schema with its keys, which stand in the order of the encrypted fields.
    pub fn new(alloc: Global, schema: Schema, keys: &Keys) -> Result<Keyring, NoMemory>
        requires { length keys.now ≡ length (numbers_of schema) }
        ensures { IfOk result (λ keyring. keyring ≡ record { schema = schema; keys = keys.now }) }
    {
        let keys = grown(alloc, keys)?;
        Ok(Keyring { schema, keys })
    }

    /// The schema.
    pub fn schema(&self) -> &Schema
        ensures { result.now ≡ self.now.schema }
    {
        &self.schema
    }

    /// How the field of a number is kept; one that isn't there counts as plain.
    pub fn kind_at(&self, number: u32) -> FieldKind
        ensures { result ≡ kind_under self.now.schema number }
    {
        kind_at(self.schema.fields(), number)
    }

    /// An encrypted field of the schema, by its number.
    pub fn encrypted(&self, number: u32) -> EncryptedField<'_>
        requires { is_kept_secret (kind_under self.now.schema number) ≡ true }
        ensures { result ≡ record { under = self.now; number = number } }
    {
        let before = &self.schema.fields()[..number as usize];
        EncryptedField {
            keyring: self,
            number,
            key: key_at(self.keys.slice(), encrypted_count(before)),
        }
    }
}

/// An encrypted field of a schema, with its key. Contracts see the schema with its keys, and the field's number.
#[derive(Drop)]
pub struct EncryptedField<'a> {
    keyring: &'a Keyring,
    number: u32,
    key: &'a FieldKey,
}

impl<'a> Model for EncryptedField<'a> {
    ghost use Rattle.qe_keyring.specs.Keyrings.{FieldOf};

    ghost Value = { FieldOf };

    ghost use Rattle.std.specs.Prelude.{◌≡◌};
    ghost use Rattle.qe_labels.specs.Under.{key_of};

    ghost view = { λ f. record { under = f.keyring.now; number = f.number } };

    ghost invariant = { λ f. f.key.now ≡ key_of f.keyring.now f.number };
}

impl<'a> EncryptedField<'a> {
    /// The token of the field's rows for compaction.
    pub fn ecoc(&self) -> EcocToken
        ensures { result.0 ≡ ecoc_token self.now.under self.now.number }
    {
        let key = self.key;
        key.ecoc
    }

    /// The key of stored values.
    pub fn cipher(&self) -> ServerDataLevel1
        ensures { result.0 ≡ cipher_token self.now.under self.now.number }
    {
        let key = self.key;
        key.cipher
    }

    /// An item's tokens without a contention factor, by which it is looked for.
    pub fn find_tokens(&self, item: &[u8]) -> FindEdge
        ensures { result ≡ find_tokens self.now.under self.now.number item.now }
    {
        let key = self.key;
        let d = key.edc.mac(item);
        let s = key.esc.mac(item);
        let l = key.server.mac(item);
        FindEdge { d, s, l }
    }

    /// An item's tokens under a contention factor; its token of rows stands also behind an IV, with a leaf byte if there is one.
    pub fn item_tokens(
        &self,
        factor: u64,
        item: &[u8],
        iv: &[u8; 16],
        leaf: Option<u8>,
    ) -> EdgeTokens
        ensures { result ≡ item_tokens self.now.under self.now.number factor item.now iv.now leaf }
    {
        let key = self.key;
        let documents = EdcDerived(key.edc.mac(item));
        let rows = EscDerived(key.esc.mac(item));
        let d = edc_contention(&documents, factor).0;
        let s = esc_contention(&rows, factor).0;
        let l = key.server.mac(item);
        let p = make_cipher(&key.ecoc, iv, &s, leaf);
        EdgeTokens { d, s, l, p }
    }

    /// A key's id, and behind it bytes that are sealed under the field's key and the id (RFC 7518, 5.2.2.1).
    pub fn sealed(
        &self,
        alloc: Global,
        id: &[u8; 16],
        iv: &[u8; 16],
        bytes: &[u8],
    ) -> Result<Bytes, NoMemory>
        ensures { IfOk result (λ value. value ≡ id.now ++ seal_of (key_of self.now.under self.now.number) id.now iv.now bytes.now) }
    {
        let key = self.key;
        let sealed = seal(alloc, &key.key, id, iv, bytes)?;
        let mut value = Bytes::from_slice(alloc, bytes_of(id))?;
        value.extend(sealed.slice())?;
        Ok(value)
    }
}
