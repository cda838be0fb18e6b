//! The lines of a script, played in their order.

ghost use Rattle.std.specs.Prelude.{◌<◌, ◌+◌, length, take, IfOk, OnOk};
ghost use Rattle.qe_script.specs.Read.{IsScript};
ghost use Rattle.qe_runs.specs.Runs.{setting_of};
ghost use Rattle.qe_line_run.specs.Playing.{IsMeantScript};
ghost use Rattle.qe_script_run.specs.Reached.{IsReached};

use crate::outcomes::is_accepted;
use crate::ran::Ran;
use crate::starting::begin;
use qe_base::NoMemory;
use qe_line_played::Played;
use qe_line_run::{last_outcome, play_next};
use qe_meant::a_script_is_meant;
use qe_script::Script;
use std::alloc::Global;

// The line at a place, with its words and its reply.
fn run_next(alloc: Global, script: &Script, place: usize, ran: &mut Ran) -> Result<(), NoMemory>
    requires meant { IsMeantScript script.now }
    requires within { place < length script.now.lines }
    requires reached { IsReached (setting_of script.now) (take place script.now.lines) ran.old }
    ensures { OnOk result (IsReached (setting_of script.now) (take (place + 1) script.now.lines) ran.new) }
{
    let clients = ran.clients.as_mut_slice();
    let Played { sent, reply } = play_next(alloc, script, place, &mut ran.engine, clients)?;
    let accepted = is_accepted(last_outcome(ran.engine.journal()));
    ran.census.add(&sent, accepted)?;
    ran.replies.push(reply)
}

/// Runs a script from an empty engine: each line's command is sent by its caller's client, which learns of the answer. The
/// journal that is left is a run of the script, and each of its replies was read.
pub fn run_script(alloc: Global, script: &Script) -> Result<Ran, NoMemory>
    requires { IsScript script.now }
    ensures reached { IfOk result (IsReached (setting_of script.now) script.now.lines) }
{
    a_script_is_meant(script);
    let mut ran = begin(alloc, script)?;
    for place in 0..script.lines.len() {
        run_next(alloc, script, place, &mut ran)?;
    }
    Ok(ran)
}
