//! One line of a run.

ghost use Rattle.std.specs.Prelude.{◌≡◌, ◌<◌, true, length, take, IfOk};
ghost use Rattle.qe_schema.specs.Fits.{fits};
ghost use Rattle.qe_schema.specs.Resolved.{IsResolved};
ghost use Rattle.qe_runs.specs.Runs.{setting_of};
ghost use Rattle.qe_line_played.specs.Played.{IsAnswered};
ghost use Rattle.qe_line_run.specs.Playing.{HasPlayed, IsMeantScript, IsReadAlways};
ghost use Rattle.qe_line_run.specs.Running.{HaveRun};

use crate::outcomes::{last_outcome, lesson};
use qe_base::NoMemory;
use qe_client::Client;
use qe_engine::Engine;
use qe_line_played::{PlayFault, Played, play_line};
use qe_script::{Line, Script};
use std::alloc::Global;

// A line played by its caller's client, where what is answered is always read.
fn play_read(
    alloc: Global,
    line: &Line,
    client: &mut Client,
    engine: &mut Engine,
) -> Result<Played, NoMemory>
    requires schema { engine.old.schema ≡ client.old.sender.under.schema }
    requires resolved { IsResolved client.old.sender.under.schema line.now.command }
    requires fits { fits client.old.sender.under.schema line.now.command ≡ true }
    requires read { IsReadAlways client.old engine.old line.now }
    ensures { IfOk result (IsAnswered client.old client.new engine.old engine.new line.now.caller line.now.command) }
{
    match play_line(alloc, client, engine, line.caller, &line.command) {
        Ok(played) => Ok(played),
        Err(PlayFault::Read(_)) => unreachable!(),
        Err(PlayFault::NoMemory) => Err(NoMemory),
    }
}

/// Plays the line at a place by its caller's client, which learns of the answer. The lines before it were run by this engine
/// and these clients; then those up to and with it were. Where memory is wanting, its entry stands or not, and the run is over.
pub fn play_next(
    alloc: Global,
    script: &Script,
    place: usize,
    engine: &mut Engine,
    clients: &mut [Client],
) -> Result<Played, NoMemory>
    requires meant { IsMeantScript script.now }
    requires within { place < length script.now.lines }
    requires have { HaveRun (setting_of script.now) (take place script.now.lines) engine.old clients.old }
    ensures { IfOk result (HasPlayed script.now place engine.old engine.new clients.new) }
{
    let line = &script.lines.slice()[place];
    let client = &mut clients[line.caller as usize];
    let played = play_read(alloc, line, client, engine)?;
    client.learn(&line.command, &lesson(last_outcome(engine.journal())));
    Ok(played)
}
