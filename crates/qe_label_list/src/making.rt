//! The labels of words, from how often each was indexed.

ghost use Rattle.std.specs.Prelude.{◌≡◌, List, map, length, IfOk};
ghost use Rattle.std.specs.List.Sorted.{IsStrictlySortedBy};
ghost use Rattle.qe_tokens.specs.declared.tokens.RootKey.{RootKey};
ghost use Rattle.qe_labels.specs.Clashes.{with_identifier};
ghost use Rattle.qe_labels.specs.Listed.{labels_in};
ghost use Rattle.qe_labels.specs.Numbers.{word_cmp};
ghost use Rattle.qe_label_list.specs.Roots.{AreWithin, root_in};
ghost use Rattle.qe_label_list.specs.Tokens.{AreOfFields, tokens_of};

use crate::LabelList;
use crate::kept::Kept;
use crate::tokens::{FieldKeys, end_number, stray_tokens};
use qe_base::NoMemory;
use qe_label_rows::{WordTokens, rows_of};
use qe_tokens::{RootKey, Word};
use std::alloc::Global;

// The keys of each field.
fn field_keys(alloc: Global, roots: &[RootKey]) -> Result<Vec<FieldKeys>, NoMemory>
    ensures { IfOk result (λ fields. AreOfFields fields.items roots.now) }
{
    let mut fields = Vec::with_capacity(alloc, roots.len())?;
    for root in roots {
        fields.push(FieldKeys::new(root))?;
    }
    Ok(fields)
}

// The keys of each word. Words of one item stand one after another, so its keys are derived once.
fn word_tokens(
    alloc: Global,
    fields: &[FieldKeys],
    counted: &[(Word, u64)],
) -> Result<Vec<WordTokens>, NoMemory>
    requires { AreWithin (length fields.now) counted.now }
    ensures { IfOk result (λ tokens. (roots : List RootKey) → AreOfFields fields.now roots
        → tokens.items ≡ map (tokens_of (root_in roots)) counted.now) }
{
    let mut tokens = Vec::with_capacity(alloc, counted.len())?;
    let mut kept = None;
    for (word, count) in counted {
        let end = end_number(*count)?;
        match word {
            Word::Item {
                field,
                item,
                contention,
            } => {
                let of_item = Kept::of(kept, fields, *field, item.slice());
                tokens.push(of_item.keys.word(*contention, end))?;
                kept = Some(of_item);
            }
            Word::Stray { token } => tokens.push(stray_tokens(token, end))?,
        }
    }
    Ok(tokens)
}

// The words alone.
fn words_of(alloc: Global, counted: Vec<(Word, u64)>) -> Result<Vec<Word>, NoMemory>
    ensures { IfOk result (λ words. words.items ≡ map (λ one. one.0) counted.items) }
{
    let mut words = Vec::with_capacity(alloc, counted.len())?;
    for (word, _) in counted {
        words.push(word)?;
    }
    Ok(words)
}

/// All labels of words in rising order, each word with how often it was indexed: its positions and tags from 1 to 2n + 2 and
/// its anchors from 0 to 2n + 2, without tags for a stray word. Field i has the root key `roots[i]`.
pub fn labels_of(
    alloc: Global,
    roots: &[RootKey],
    counted: Vec<(Word, u64)>,
) -> Result<LabelList, NoMemory>
    requires rising { IsStrictlySortedBy word_cmp (map (λ one. one.0) counted.items) }
    requires within { AreWithin (length roots.now) counted.items }
    ensures { IfOk result (λ list. list ≡ map (with_identifier (root_in roots.now)) (labels_in counted.items)) }
{
    let fields = field_keys(alloc, roots)?;
    let tokens = word_tokens(alloc, &fields, &counted)?;
    let rows = rows_of(alloc, &tokens)?;
    let words = words_of(alloc, counted)?;
    Ok(LabelList::from_rows(alloc, words, rows))
}
