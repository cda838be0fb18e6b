//! Prints what `read_script` answers to scripts: standard input holds them, each behind a line `# NAME`, and `stdout` what
//! an independent program answers. A refused script has its refusal, any other its header, its commands and its documents as
//! a find prints them. Read: part, command, replies, script.
#![tactic(auto)]

mod command;
mod part;
mod replies;
mod script;

use qe_base::{StdSource, take_all};
use qe_line::Fault;

fn main(rt: HostRuntime) -> Result<(), Fault> {
    let mut source = StdSource::new(&rt);
    let text = take_all(rt.alloc(), &mut source)?;
    script::print_all(&rt, text.slice())
}
