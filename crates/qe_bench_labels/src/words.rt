//! Words by the thousand, and their labels.

ghost use Rattle.std.specs.Prelude.{IfOk};
ghost use Rattle.qe_rising.specs.Rising.{AreCounted};

use qe_base::{Bytes, NoMemory};
use qe_label_list::{LabelList, labels_of};
use qe_rising::push_word;
use qe_tokens::{RootKey, Word};
use std::alloc::Global;

/// The root key of the one field.
const ROOTS: [RootKey; 1] = [RootKey([7; 32])];

// The word of an item of 8 bytes.
fn word_of(alloc: Global, number: u64) -> Result<Word, NoMemory> {
    let item = Bytes::from_slice(alloc, &number.to_be_bytes())?;
    Ok(Word::Item {
        field: 0,
        item,
        contention: 0,
    })
}

// So many words, each of an item of its own and indexed once.
fn words(alloc: Global, count: u64) -> Result<Vec<(Word, u64)>, NoMemory>
    ensures { IfOk result (λ words. AreCounted 1 words.items) }
{
    let mut words = Vec::new(alloc);
    for number in 0..count {
        push_word(&mut words, 1, word_of(alloc, number)?, 1)?;
    }
    Ok(words)
}

/// The labels of so many words.
pub fn labels(alloc: Global, count: u64) -> Result<LabelList, NoMemory> {
    labels_of(alloc, &ROOTS, words(alloc, count)?)
}
