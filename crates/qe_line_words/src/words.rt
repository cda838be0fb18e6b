//! Words: a kind, and numbers behind commas.

use qe_line::Fault;

/// The text that a line's bytes are.
pub fn line_of(bytes: &[u8]) -> Result<&str, Fault> {
    match str::from_utf8(bytes) {
        Ok(line) => Ok(line),
        Err(_) => Err(Fault::Refused),
    }
}

/// What stands before a word's first comma.
pub fn kind_of(word: &str) -> &str {
    match word.split_once(',') {
        Some((kind, _)) => kind,
        None => word,
    }
}

/// What stands behind so many commas; nothing where there are fewer.
pub fn behind(word: &str, commas: u32) -> &str {
    let mut rest = word;
    for _ in 0..commas {
        rest = behind_one(rest);
    }
    rest
}

fn behind_one(word: &str) -> &str {
    match word.split_once(',') {
        Some((_, rest)) => rest,
        None => "",
    }
}

/// The number that digits are.
pub fn number_in(digits: &str) -> Result<u64, Fault> {
    match digits.parse::<u64>() {
        Ok(number) => Ok(number),
        Err(_) => Err(Fault::Refused),
    }
}

/// The first so many numbers of a word.
pub fn numbers_of<const N: usize>(word: &str) -> Result<[u64; N], Fault> {
    let mut numbers = [0; N];
    let mut parts = behind(word, 1).split(',');
    for number in &mut numbers {
        let Some(digits) = parts.next() else {
            return Err(Fault::Refused);
        };
        *number = number_in(digits)?;
    }
    Ok(numbers)
}
