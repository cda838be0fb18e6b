//! Words in rising order, each with how often it was indexed.

ghost use Rattle.std.specs.Prelude.{◌≡◌, IsTrue};
ghost use Rattle.qe_labels.specs.Numbers.{word_cmp};
ghost use Rattle.qe_label_list.specs.Roots.{IsWithin};
ghost use Rattle.qe_rising.specs.Rising.{AreCounted, WordStandsBehind};

use qe_base::NoMemory;
use qe_label_list::word_order;
use qe_tokens::Word;
use std::cmp::Ordering;

// Whether an item's word is of one of so many fields.
fn is_within(fields: usize, word: &Word) -> bool
    ensures { IsTrue result → IsWithin fields word.now }
{
    match word {
        Word::Item { field, .. } => (*field as usize) < fields,
        Word::Stray { .. } => true,
    }
}

fn is_before(one: &Word, other: &Word) -> bool
    ensures { IsTrue result → word_cmp one.now other.now ≡ Ordering.Less }
{
    word_order(one, other) == Ordering::Less
}

// Whether a word stands behind all others, since it does behind the last one.
fn stands_behind(counted: &[(Word, u64)], word: &Word) -> bool
    ensures { IsTrue result → WordStandsBehind counted.now word.now }
{
    match counted.last() {
        Some((last, _)) => is_before(last, word),
        None => true,
    }
}

/// Adds a word and how often it was indexed, where it stands behind all others and is of one of so many fields: whether
/// it was added.
pub fn push_word(
    counted: &mut Vec<(Word, u64)>,
    fields: usize,
    word: Word,
    count: u64,
) -> Result<bool, NoMemory>
    requires { AreCounted fields counted.old.items }
    ensures { AreCounted fields counted.new.items }
{
    if !is_within(fields, &word) || !stands_behind(counted, &word) {
        return Ok(false);
    }
    counted.push((word, count))?;
    Ok(true)
}
