//! The lines of a script, each played by its caller's client.

ghost use Rattle.std.specs.Prelude.{◌≡◌, ◌<◌, length};
ghost use Rattle.qe_script.specs.Read.{IsScript};
ghost use Rattle.qe_vectors_played.specs.Pairs.{AreUnder};

use crate::pair::Pair;
use qe_client::Client;
use qe_engine::Engine;
use qe_line_played::{PlayFault, Played, play_line};
use qe_meant::a_script_is_meant;
use qe_script::Script;
use std::alloc::Global;

// The line at a place, played by a client. Whatever comes of it, the schemas stay.
fn play_at(
    alloc: Global,
    script: &Script,
    place: usize,
    engine: &mut Engine,
    client: &mut Client,
) -> Result<Played, PlayFault>
    requires read { IsScript script.now }
    requires within { place < length script.now.lines }
    requires engine { engine.old.schema ≡ script.now.schema }
    requires client { client.old.sender.under.schema ≡ script.now.schema }
    ensures engine { engine.new.schema ≡ script.now.schema }
    ensures client { client.new.sender.under.schema ≡ script.now.schema }
{
    a_script_is_meant(script);
    let line = &script.lines.slice()[place];
    play_line(alloc, client, engine, line.caller, &line.command)
}

/// Plays the line at a place by the client of its caller.
pub fn play_next(
    alloc: Global,
    script: &Script,
    place: usize,
    pair: &mut Pair,
) -> Result<Played, PlayFault>
    requires read { IsScript script.now }
    requires within { place < length script.now.lines }
    requires under { AreUnder script.now.schema pair.old }
    ensures { AreUnder script.now.schema pair.new }
{
    if script.lines.slice()[place].caller == 0 {
        play_at(alloc, script, place, &mut pair.engine, &mut pair.first)
    } else {
        play_at(alloc, script, place, &mut pair.engine, &mut pair.second)
    }
}
