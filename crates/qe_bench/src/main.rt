//! Does the work of the project's own crates many times over, for timing: `bench/run` calls it.
//!
//! Words are pairs of a kind of work and a number of turns, such as `aes 1000 hmac 1000`. Each pair prints its last
//! result in hex, so that no turn can be left out, and the number of bytes that a turn takes in. `cipher HEX` prints
//! the cipher of one block, of 32 bytes of key and 16 of block: `bench/vectors` compares it with another program's.
#![tactic(auto)]

mod collections;
mod documents;
mod hashes;
mod work;

use qe_base::NoMemory;
use std::alloc::Global;
use std::process::ExitCode;
use std::{env, io};
use work::{Outcome, Work, ciphered, turned};

fn main(rt: HostRuntime) -> io::Result<ExitCode> {
    let words: Vec<String> = env::args(&rt)?.skip(1).collect(rt.alloc())?;
    for pair in words.as_slice().chunks(2) {
        let [kind, word] = pair else {
            return usage(&rt);
        };
        match result(rt.alloc(), kind.as_str(), word.as_str()) {
            Ok(Some(turned)) => {
                let last = hex::encode(rt.alloc(), turned.last)?;
                let bytes = turned.bytes;
                println!(rt; "{kind} {last} {bytes}")?;
            }
            Ok(None) => return usage(&rt),
            Err(NoMemory) => return Ok(ExitCode::from(5)),
        }
    }
    Ok(ExitCode::SUCCESS)
}

// What a pair of words gives, where they are one.
fn result(alloc: Global, kind: &str, word: &str) -> Result<Option<Outcome>, NoMemory> {
    if kind == "cipher" {
        return Ok(ciphered(word));
    }
    let (Some(work), Ok(turns)) = (Work::named(kind), word.parse::<u64>()) else {
        return Ok(None);
    };
    let turned = turned(alloc, work, turns)?;
    Ok(Some(turned))
}

fn usage(rt: &impl Eprint) -> io::Result<ExitCode> {
    eprintln!(rt;
        "usage: qe_bench [aes N] [ctr N] [schedule N] [hmac N] [sha256 N] [sha256_lanes N] [prf1 N] [prf1_lanes N] [seal N] [bson N] [decode N] [encode N] [decode_nested N] [encode_nested N] [rows N] [links N] [finds N] [cipher HEX]"
    )?;
    Ok(ExitCode::from(2))
}
