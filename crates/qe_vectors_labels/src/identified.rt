//! The labels of words with their identifiers.

ghost use Rattle.std.specs.Prelude.{IfOk};
ghost use Rattle.qe_rising.specs.Rising.{AreCounted};

use crate::line::{Shown, item_of, numbers_of, stray_of};
use qe_label_list::{LabelList, labels_of};
use qe_line::{Fault, Hex, counting};
use qe_rising::push_word;
use qe_tokens::{RootKey, Word};
use std::alloc::Global;

/// Prints the labels of words in rising order, each with the front of its identifier. A word is five numbers: an item's 0
/// or a stray word's 1, its field, its item, its contention factor, and how often it was indexed. The fields have the root
/// keys 40 to 5f and 80 to 9f.
pub fn print(rt: &(impl Print + AllocGlobal), words: &str) -> Result<(), Fault> {
    let roots = [RootKey(counting(0x40)), RootKey(counting(0x80))];
    let list = labels_of(rt.alloc(), &roots, words_of(rt.alloc(), words)?)?;
    print_list(rt, &list)
}

fn words_of(alloc: Global, words: &str) -> Result<Vec<(Word, u64)>, Fault>
    ensures { IfOk result (λ words. AreCounted 2 words.items) }
{
    let mut counted = Vec::new(alloc);
    for word in words.split(' ') {
        let [kind, field, item, contention, count] = numbers_of::<5>(word)?;
        let word = match kind {
            0 => item_of(alloc, field, item, contention)?,
            _ => stray_of(item),
        };
        if !push_word(&mut counted, 2, word, count)? {
            return Err(Fault::Refused);
        }
    }
    Ok(counted)
}

fn print_list(rt: &impl Print, list: &LabelList) -> Result<(), Fault> {
    for place in 0..list.len() {
        let label = list.label(place)?;
        let identifier = list.identifier(place);
        println!(rt; "{} {}", Shown(&label), Hex(&identifier[..8]))?;
    }
    Ok(())
}
