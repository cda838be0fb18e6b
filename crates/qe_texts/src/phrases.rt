//! A word, and names and numbers behind it, each after a space.

ghost use Rattle.std.specs.Prelude.{◌≡◌, Ok, string_bytes};
ghost use Rattle.qe_base.specs.Answers.{Answers};
ghost use Rattle.qe_texts.specs.Faults.{print_refusal};
ghost use Rattle.qe_texts.specs.Phrases as phrases;

use crate::fault::PrintFault;
use std::alloc::Global;

pub(crate) fn alone(alloc: Global, word: &str) -> Result<String, PrintFault>
    ensures { Answers string_bytes print_refusal result (Ok word.now) }
{
    Ok(String::from_str(alloc, word)?)
}

pub(crate) fn counted(alloc: Global, word: &str, n: u64) -> Result<String, PrintFault>
    ensures { Answers string_bytes print_refusal result (Ok (phrases.counted word.now n)) }
{
    Ok(format!(in alloc; "{word} {n}")?)
}

pub(crate) fn twice_counted(
    alloc: Global,
    word: &str,
    first: u64,
    second: u64,
) -> Result<String, PrintFault>
    ensures { Answers string_bytes print_refusal result (Ok (phrases.twice_counted word.now first second)) }
{
    Ok(format!(in alloc; "{word} {first} {second}")?)
}

pub(crate) fn named(alloc: Global, word: &str, name: &str) -> Result<String, PrintFault>
    ensures { Answers string_bytes print_refusal result (Ok (phrases.named word.now name.now)) }
{
    Ok(format!(in alloc; "{word} {name}")?)
}
