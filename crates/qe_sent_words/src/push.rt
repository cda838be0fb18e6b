//! Words of items, added to a list.

ghost use Rattle.std.specs.Prelude.{◌≡◌, ◌-◌, ◌<◌, [], ◌∷◌, ◌++◌, ◌^◌, OnOk};
ghost use Rattle.qe_tokens.specs.declared.words.Word.TheVariants.{Item};
ghost use Rattle.qe_labels.specs.Tags.{words_under};
ghost use Rattle.qe_encodes.specs.Words.{factor_words, item_words};

use qe_base::{Bytes, NoMemory};
use qe_tokens::{Word, Words};
use std::alloc::Global;

// Adds the word of an item under a factor.
fn push_word(
    alloc: Global,
    words: &mut Words,
    field: u32,
    item: &[u8],
    factor: u64,
) -> Result<(), NoMemory>
    ensures { OnOk result (words.new ≡ words.old ++ Item field item.now factor ∷ []) }
{
    let item = Bytes::from_slice(alloc, item)?;
    words.push(Word::Item {
        field,
        item,
        contention: factor,
    })?;
    Ok(())
}

// Adds the words of an item under so many factors, from 0 on.
fn push_factors(
    alloc: Global,
    words: &mut Words,
    field: u32,
    item: &[u8],
    count: u64,
) -> Result<(), NoMemory>
    ensures { OnOk result (words.new ≡ words.old ++ factor_words field item.now 0 count) }
{
    for factor in 0..count {
        push_word(alloc, words, field, item, factor)?;
    }
    Ok(())
}

/// Adds the words of items under each factor from 0 to the greatest.
pub(crate) fn push_items(
    alloc: Global,
    words: &mut Words,
    field: u32,
    items: &[Bytes],
    greatest: u64,
) -> Result<(), NoMemory>
    requires { greatest < 2 ^ 64 - 1 }
    ensures { OnOk result (words.new ≡ words.old ++ item_words field items.now greatest) }
{
    for item in items {
        push_factors(alloc, words, field, item.slice(), greatest + 1)?;
    }
    Ok(())
}

/// Adds the words of items under one factor.
pub(crate) fn push_under(
    alloc: Global,
    words: &mut Words,
    field: u32,
    factor: u64,
    items: &[Bytes],
) -> Result<(), NoMemory>
    ensures { OnOk result (words.new ≡ words.old ++ words_under field factor items.now) }
{
    for item in items {
        push_word(alloc, words, field, item.slice(), factor)?;
    }
    Ok(())
}
