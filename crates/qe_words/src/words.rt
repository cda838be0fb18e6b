//! The words, read.

ghost use Rattle.std.specs.Prelude.{◌≡◌, map, string_bytes};
ghost use Rattle.std.specs.Result.{result_ok};
ghost use Rattle.qe_words.specs.Words.{number_of, documents_of, task_named, make_of, words_of};

use itoa::Buffer;
use thiserror::Error;

/// The greatest number of documents that a script is made of.
const MOST: u64 = 4000;

/// What the program is asked to do.
#[derive(Clone, Copy, Debug, PartialEq, Eq)]
pub enum Words {
    /// To run a script.
    Replay,
    /// To show blobs, a line of hex digits each.
    Show,
    /// To make a script of 1 to 4,000 documents, whose values are drawn from a seed.
    Make { documents: u32, seed: u64 },
}

/// The words are of no known form.
#[derive(Clone, Copy, Debug, PartialEq, Eq, Error)]
#[error("the words are none of: replay, show, make N SEED")]
pub struct BadWords;

/// Reads the words: `replay` or `show` alone, or `make` with the number of documents, from 1 to 4,000, and a seed below 2^64.
pub fn read_words(words: &[String]) -> Result<Words, BadWords>
    ensures exact { result_ok result ≡ words_of (map string_bytes words.now) }
{
    let task = match words {
        [word] => task_named(word.as_str()),
        [word, documents, seed] if word.as_str() == "make" => {
            make_of(documents.as_str(), seed.as_str())
        }
        _ => None,
    };
    task.ok_or(BadWords)
}

fn task_named(word: &str) -> Option<Words>
    ensures { result ≡ task_named word.now }
{
    match word {
        "replay" => Some(Words::Replay),
        "show" => Some(Words::Show),
        _ => None,
    }
}

fn make_of(documents: &str, seed: &str) -> Option<Words>
    ensures { result ≡ make_of documents.now seed.now }
{
    let documents = documents_of(documents)?;
    let seed = number_of(seed)?;
    Some(Words::Make { documents, seed })
}

fn documents_of(word: &str) -> Option<u32>
    ensures { result ≡ documents_of word.now }
{
    let n = number_of(word)?;
    if 1 <= n && n <= MOST {
        Some(n as u32)
    } else {
        None
    }
}

// The number that is written as the word: `parse` also reads a plus and leading zeros.
fn number_of(word: &str) -> Option<u64>
    ensures { result ≡ number_of word.now }
{
    let n = word.parse::<u64>().ok()?;
    if Buffer::new().format(n) == word {
        Some(n)
    } else {
        None
    }
}
