//! Scripts, and what their callers read.

ghost use Rattle.std.specs.Prelude.{◌<◌, length};
ghost use Rattle.qe_script.specs.Read.{IsScript};
ghost use Rattle.qe_vectors_played.specs.Pairs.{AreUnder};

use crate::pair::{Pair, pair_of};
use crate::playing::play_next;
use qe_base::{Bytes, Lines};
use qe_engine::Engine;
use qe_line::{Fault, Hex, accepted, print_line};
use qe_line_played::PlayFault;
use qe_schema::{PlainReply, Schema};
use qe_script::{Script, read_script, reply_text};
use sha2::{Digest, Sha256};

fn print_reply(rt: &HostRuntime, schema: &Schema, reply: &PlainReply) -> Result<(), Fault> {
    let text = accepted(reply_text(rt.alloc(), schema, reply))?;
    print_line(rt, text.as_str())
}

// Plays the line at a place, and prints what is read of its reply.
fn print_next(rt: &HostRuntime, script: &Script, place: usize, pair: &mut Pair) -> Result<(), Fault>
    requires read { IsScript script.now }
    requires within { place < length script.now.lines }
    requires under { AreUnder script.now.schema pair.old }
    ensures { AreUnder script.now.schema pair.new }
{
    match play_next(rt.alloc(), script, place, pair) {
        Ok(played) => print_reply(rt, &script.schema, &played.reply),
        Err(PlayFault::Read(_)) => Err(Fault::Refused),
        Err(PlayFault::NoMemory) => Err(Fault::NoMemory),
    }
}

// How many rows there are, and the hash of all that is kept.
fn print_kept(rt: &HostRuntime, engine: &Engine) -> Result<(), Fault> {
    let (esc, ecoc) = (engine.esc_rows(), engine.ecoc_rows());
    let dump = engine.dump()?;
    let digest = Sha256::digest(dump.slice());
    print_line(
        rt,
        format_args!("esc {esc} ecoc {ecoc} digest {}", Hex(digest.as_slice())),
    )
}

fn print_played(rt: &HostRuntime, script: &Script) -> Result<(), Fault>
    requires { IsScript script.now }
{
    let mut pair = pair_of(rt.alloc(), script)?;
    for place in 0..script.lines.len() {
        print_next(rt, script, place, &mut pair)?;
    }
    print_kept(rt, &pair.engine)
}

fn print_script(rt: &HostRuntime, bytes: &[u8]) -> Result<(), Fault> {
    match read_script(rt.alloc(), bytes) {
        Ok(script) => print_played(rt, &script),
        Err(_) => Err(Fault::Refused),
    }
}

fn print_name(rt: &HostRuntime, name: &[u8]) -> Result<(), Fault> {
    let Ok(name) = std::str::from_utf8(name) else {
        return Err(Fault::Refused);
    };
    print_line(rt, name)
}

/// Prints what the callers of each script read; a script begins behind its name's line, which begins with `#`.
pub fn print_all(rt: &HostRuntime, text: &[u8]) -> Result<(), Fault> {
    let mut lines = Lines::of(text);
    let mut script = Bytes::new(rt.alloc());
    while let Some((_, line)) = lines.next_line() {
        if line.first() == Some(&b'#') {
            if script.len() != 0 {
                print_script(rt, script.slice())?;
            }
            print_name(rt, line)?;
            script = Bytes::new(rt.alloc());
        } else {
            script.extend(line)?;
            script.push(b'\n')?;
        }
    }
    print_script(rt, script.slice())
}
