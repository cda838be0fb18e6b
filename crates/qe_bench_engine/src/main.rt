//! Applies commands by the thousand to an engine, for timing: `bench/run` calls it.
//!
//! Words are pairs of a kind of work and a number of documents, such as `made 1000 inserts 1000`. A document has a value
//! of an equality field, one of a thousand, and one of a range field with 14 edges. `made` makes the inserts' commands,
//! and prints how many nonces the last one needs; `inserts` applies them too, and prints the last id; `finds` goes on
//! with a thousand finds, and prints how many documents they find together; `steps` goes on with a compaction's first
//! thousand steps of a unit, and `compaction` with all of one in steps of a thousand units: both print how many units are
//! left. Behind it stand the numbers of rows and of rows for the next compaction. Read: tokens, documents, work.
#![tactic(auto)]

mod documents;
mod tokens;
mod work;

use qe_line::Fault;
use std::process::ExitCode;
use std::{env, io};
use work::{Found, Work, done};

fn main(rt: HostRuntime) -> io::Result<ExitCode> {
    let words: Vec<String> = env::args(&rt)?.skip(1).collect(rt.alloc())?;
    for pair in words.as_slice().chunks(2) {
        let [kind, word] = pair else {
            return usage(&rt);
        };
        let (Some(work), Ok(count)) = (Work::named(kind.as_str()), word.parse::<u32>()) else {
            return usage(&rt);
        };
        match done(rt.alloc(), work, count) {
            Ok(found) => {
                let Found { found, rows, left } = found;
                println!(rt; "{kind} {count}: {found}, rows {rows}, for compaction {left}")?;
            }
            Err(Fault::NoMemory) => return Ok(ExitCode::from(5)),
            Err(_) => return Ok(ExitCode::from(6)),
        }
    }
    Ok(ExitCode::SUCCESS)
}

fn usage(rt: &impl Eprint) -> io::Result<ExitCode> {
    eprintln!(rt;
        "usage: qe_bench_engine [made N] [inserts N] [finds N] [steps N] [compaction N]"
    )?;
    Ok(ExitCode::from(2))
}
