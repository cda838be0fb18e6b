//! What is derived once: the keys of a field, of an item, and of a word.

ghost use Rattle.std.specs.Prelude.{◌≡◌, ◌<◌, ◌+◌, ◌*◌, ℕ, List, length, replicate, true, false, IfOk, ◌^◌};
ghost use Rattle.qe_tokens.specs.Tokens.{collections_of, edc_contention_of, edc_derived_of, edc_of, esc_contention_of, esc_derived_of, esc_of};

use qe_base::NoMemory;
use qe_label_rows::WordTokens;
use qe_seal::HmacKey;
use qe_tokens::{RootKey, collections, edc, esc};

/// A word is indexed less often than this.
const MOST: u64 = 1 << 62;

/// The keys of a field's items: of rows (ESC) and of documents (EDC).
#[derive(Drop)]
pub(crate) struct FieldKeys {
    pub rows: HmacKey,
    pub tags: HmacKey,
}

/// The keys of an item's words.
#[derive(Drop)]
pub(crate) struct ItemKeys {
    pub rows: HmacKey,
    pub tags: HmacKey,
}

impl FieldKeys {
    ghost use Rattle.qe_label_list.specs.Tokens.{IsOfField, IsOfItem};

    // Of the field with this root key.
    pub(crate) fn new(root: &RootKey) -> FieldKeys
        ensures { IsOfField result root.now.0 }
    {
        let level = collections(root);
        FieldKeys {
            rows: HmacKey::new(&esc(&level).0),
            tags: HmacKey::new(&edc(&level).0),
        }
    }

    // Of an item of the field.
    pub(crate) fn item(&self, item: &[u8]) -> ItemKeys
        ensures { (root : List ℕ) → IsOfField self.now root → IsOfItem result root item.now }
    {
        ItemKeys {
            rows: HmacKey::new(&self.rows.mac(item)),
            tags: HmacKey::new(&self.tags.mac(item)),
        }
    }
}

impl ItemKeys {
    ghost use Rattle.qe_label_list.specs.Tokens.{IsOfItem};

    // Of the item's word under a contention factor.
    pub(crate) fn word(&self, contention: u64, end: u64) -> WordTokens
        ensures rows { (root item : List ℕ) → IsOfItem self.now root item
            → result.rows ≡ esc_contention_of (esc_derived_of (esc_of (collections_of root)) item) contention }
        ensures tags { (root item : List ℕ) → IsOfItem self.now root item
            → result.tags ≡ edc_contention_of (edc_derived_of (edc_of (collections_of root)) item) contention }
        ensures has_tags { result.has_tags ≡ true }
        ensures end { result.end ≡ end }
    {
        WordTokens {
            rows: self.rows.prf1(contention),
            tags: self.tags.prf1(contention),
            has_tags: true,
            end,
        }
    }
}

// Of a stray word, which is a token of rows itself and has no tags.
pub(crate) fn stray_tokens(token: &[u8; 32], end: u64) -> WordTokens
    ensures rows { result.rows ≡ token.now }
    ensures tags { result.tags ≡ replicate 32 0 }
    ensures has_tags { result.has_tags ≡ false }
    ensures end { result.end ≡ end }
{
    WordTokens {
        rows: *token,
        tags: [0; 32],
        has_tags: false,
        end,
    }
}

// The number behind the last one of a word that was indexed so often. A word with greater numbers has more labels than any
// memory holds.
pub(crate) fn end_number(count: u64) -> Result<u64, NoMemory>
    ensures { IfOk result (λ end. end ≡ 2 * count + 3) }
{
    if count >= MOST {
        return Err(NoMemory);
    }
    Ok(2 * count + 3)
}
