//! Lists the labels of words, for timing: `bench/run` calls it.
//!
//! Words are pairs of a kind of work and a number of words, such as `list 1000 clash 1000`. Each of these words is of an
//! item of its own and was indexed once, and so it has 13 labels. A pair prints how many labels there are and the front of
//! the last one's identifier; `clash` looks for two labels with one identifier, and prints what it finds too.
#![tactic(auto)]

mod words;

use qe_base::{NoMemory, array_at};
use qe_label_list::LabelList;
use std::alloc::Global;
use std::process::ExitCode;
use std::{env, io};
use words::labels;

/// What was found of labels.
#[derive(Clone, Copy)]
struct Found {
    count: usize,
    last: u64,
    clashes: bool,
}

fn main(rt: HostRuntime) -> io::Result<ExitCode> {
    let words: Vec<String> = env::args(&rt)?.skip(1).collect(rt.alloc())?;
    for pair in words.as_slice().chunks(2) {
        let [kind, word] = pair else {
            return usage(&rt);
        };
        match answer(rt.alloc(), kind.as_str(), word.as_str()) {
            Ok(Some(found)) => {
                let Found {
                    count,
                    last,
                    clashes,
                } = found;
                println!(rt; "{kind} {count} labels, last {last:016x}, clash {clashes}")?;
            }
            Ok(None) => return usage(&rt),
            Err(NoMemory) => return Ok(ExitCode::from(5)),
        }
    }
    Ok(ExitCode::SUCCESS)
}

// What a pair of words gives, where they are one.
fn answer(alloc: Global, kind: &str, word: &str) -> Result<Option<Found>, NoMemory> {
    let Ok(count) = word.parse::<u64>() else {
        return Ok(None);
    };
    match kind {
        "list" => Ok(Some(found_in(&labels(alloc, count)?, false))),
        "clash" => {
            let list = labels(alloc, count)?;
            let clashes = list.clash()?.is_some();
            Ok(Some(found_in(&list, clashes)))
        }
        _ => Ok(None),
    }
}

fn found_in(list: &LabelList, clashes: bool) -> Found {
    Found {
        count: list.len(),
        last: front_of_last(list),
        clashes,
    }
}

// The first 8 bytes of the last identifier, as a number.
fn front_of_last(list: &LabelList) -> u64 {
    if list.is_empty() {
        return 0;
    }
    u64::from_be_bytes(array_at(&list.identifier(list.len() - 1), 0))
}

fn usage(rt: &impl Eprint) -> io::Result<ExitCode> {
    eprintln!(rt; "usage: qe_bench_labels [list N] [clash N]")?;
    Ok(ExitCode::from(2))
}
