//! Words with their numbers, from what happened to them.

ghost use Rattle.std.specs.Prelude.{◌≡◌, ◌+◌, List, map, IfOk, OnOk};
ghost use Rattle.std.specs.FinMap.{entries, from_entries};
ghost use Rattle.qe_labels.specs.Numbers.{learned, raised};
ghost use Rattle.qe_census.specs.Events.{after, numbers_after};

use crate::event::Event;
use crate::word_key::WordKey;
use qe_base::{Duplicate, NoMemory};
use qe_tokens::Word;
use std::alloc::Global;
use std::collections::BTreeMap;

// The word is one of the run's.
fn learn(numbers: &mut BTreeMap<WordKey, u64>, key: WordKey) -> Result<(), NoMemory>
    ensures { OnOk result (from_entries numbers.new.entries ≡ learned (from_entries numbers.old.entries) key) }
{
    if numbers.contains_key(&key) {
        return Ok(());
    }
    numbers.insert(key, 0)?;
    Ok(())
}

// One more than a number. No memory holds what would be counted by a greater one.
fn next_number(number: u64) -> Result<u64, NoMemory>
    ensures { IfOk result (λ next. next ≡ number + 1) }
{
    if number == u64::MAX {
        return Err(NoMemory);
    }
    Ok(number + 1)
}

// The word was indexed once more.
fn raise(numbers: &mut BTreeMap<WordKey, u64>, key: WordKey) -> Result<(), NoMemory>
    ensures { OnOk result (from_entries numbers.new.entries ≡ raised (from_entries numbers.old.entries) key) }
{
    let number = numbers.get(&key).copied().unwrap_or(0);
    let next = next_number(number)?;
    numbers.insert(key, next)?;
    Ok(())
}

// What an event makes of the numbers.
fn note(numbers: &mut BTreeMap<WordKey, u64>, event: &Event) -> Result<(), NoMemory>
    ensures { OnOk result (from_entries numbers.new.entries ≡ after (from_entries numbers.old.entries) event.now) }
{
    let key = WordKey::of(event.word.copy()?);
    if event.indexed {
        raise(numbers, key)
    } else {
        learn(numbers, key)
    }
}

// The numbers after events.
fn numbers_of(alloc: Global, events: &[Event]) -> Result<BTreeMap<WordKey, u64>, NoMemory>
    ensures { IfOk result (λ numbers. from_entries numbers.entries ≡ numbers_after events.now) }
{
    let mut numbers = BTreeMap::new(alloc);
    for event in events {
        note(&mut numbers, event)?;
    }
    Ok(numbers)
}

// The words in their order, each with its number.
pub(crate) fn counted(alloc: Global, events: &[Event]) -> Result<Vec<(Word, u64)>, NoMemory>
    ensures { IfOk result (λ words. words.items ≡ entries (numbers_after events.now)) }
{
    let numbers = numbers_of(alloc, events)?;
    let mut words = Vec::with_capacity(alloc, numbers.len())?;
    for (key, number) in numbers {
        words.push((key.into_word(), number))?;
    }
    Ok(words)
}
