//! `qerun` runs scripts of Queryable Encryption, by clients that hold the keys and a server that sees tokens alone, shows
//! what is in blobs, and makes scripts to try it on.
//!
//! `replay` (top) is the one call: its contract says what each status means, and that the replies are those of a plain list of
//! documents. `specs/Top.antt` has its words; what is due is qe_due's.
#![tactic(auto)]

#[cfg(test)]
mod tests;
mod top;

use qe_base::{NoMemory, Status, StdSink, StdSource};
use std::env;
use std::io::ErrorKind;
use std::process::ExitCode;

fn main(rt: HostRuntime) -> ExitCode {
    let status = match words(&rt) {
        Ok(words) => top::replay(
            rt.alloc(),
            words.as_slice(),
            &mut StdSource::new(&rt),
            &mut StdSink::new(&rt),
        ),
        Err(NoMemory) => Status::NoMemory,
    };
    ExitCode::from(status.code())
}

// The words behind the program's name. Where one isn't text there are none, since both are of no known form.
fn words(rt: &HostRuntime) -> Result<Vec<String>, NoMemory> {
    match env::args(rt) {
        Ok(words) => Ok(words.skip(1).collect(rt.alloc())?),
        Err(error) if error.kind() == ErrorKind::OutOfMemory => Err(NoMemory),
        Err(_) => Ok(Vec::new(rt.alloc())),
    }
}
