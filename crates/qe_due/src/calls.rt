//! What is due for the words and what the source gives. Nothing is written here.

ghost use Rattle.std.specs.Prelude.{◌≡◌, ◌≤◌, map, string_bytes, IfOk, IfErr};
ghost use Rattle.qe_make.specs.Made.{made};
ghost use Rattle.qe_due.specs.Ending.{IsEnding, IsEndingFor, IsInputEnding, IsWhyNone, IsWhyStopped, LeavesUnread};
ghost use Rattle.qe_due.specs.Status.{status_of};

use crate::ending::{Ending, Stop};
use crate::task::Task;
use crate::texts::{not_hex_text, refusal_text, too_long_text, usage_text};
use qe_base::{NoMemory, Source, Status, TakeFault, take_all};
use qe_make::make;
use qe_play::{Verdict, script_due};
use qe_script::{ScriptFault, read_script};
use qe_show::{ShowFault, show};
use qe_words::{BadWords, Words, read_words};
use std::alloc::Global;

/// What is due for the words and what the source gives, or why nothing is.
pub fn due<S: Source>(alloc: Global, words: &[String], source: &mut S) -> Result<Ending, Stop>
    ensures due { IfOk result (IsEnding (map string_bytes words.now) (S.left source.old) (S.left source.new)) }
    ensures stop { IfErr result (IsWhyStopped (map string_bytes words.now) (S.faults source.old) (S.faults source.new) (S.left source.old) (S.left source.new)) }
    ensures reads { S.faults source.old ≤ S.faults source.new }
    ensures unread { LeavesUnread (map string_bytes words.now) source.old source.new }
{
    match read_words(words) {
        Ok(Words::Replay) => input_ending(alloc, Task::Replay, source),
        Ok(Words::Show) => input_ending(alloc, Task::Show, source),
        Ok(Words::Make { documents, seed }) => {
            let text = make(alloc, documents, seed)?;
            Ok(Ending {
                status: Status::Done,
                text,
            })
        }
        Err(BadWords) => {
            let text = usage_text(alloc)?;
            Ok(Ending {
                status: Status::BadWords,
                text,
            })
        }
    }
}

// What is due of a task for what a source gives.
fn input_ending<S: Source>(alloc: Global, task: Task, source: &mut S) -> Result<Ending, Stop>
    ensures due { IfOk result (IsInputEnding task (S.left source.old) (S.left source.new)) }
    ensures stop { IfErr result (IsWhyNone (S.faults source.old) (S.faults source.new) (S.left source.old) (S.left source.new)) }
    ensures reads { S.faults source.old ≤ S.faults source.new }
{
    match take_all(alloc, source) {
        Ok(taken) => {
            let ending = ending_for(alloc, task, taken.slice())?;
            Ok(ending)
        }
        Err(TakeFault::TooLong { .. }) => {
            let text = too_long_text(alloc)?;
            Ok(Ending {
                status: Status::ScriptTooLong,
                text,
            })
        }
        Err(TakeFault::ReadFault) => Err(Stop::ReadFault),
        Err(TakeFault::NoMemory) => Err(Stop::NoMemory),
    }
}

// What is due of a task for the bytes of its input.
fn ending_for(alloc: Global, task: Task, taken: &[u8]) -> Result<Ending, NoMemory>
    ensures { IfOk result (IsEndingFor task taken.now) }
{
    match task {
        Task::Replay => script_ending(alloc, taken),
        Task::Show => lines_ending(alloc, taken),
    }
}

// The text of a run of the script, or its first line that isn't read.
fn script_ending(alloc: Global, taken: &[u8]) -> Result<Ending, NoMemory>
    ensures { IfOk result (IsEndingFor Task.Replay taken.now) }
{
    match read_script(alloc, taken) {
        Ok(script) => {
            let due = script_due(alloc, &script)?;
            Ok(Ending {
                status: status_of(due.verdict),
                text: due.text,
            })
        }
        Err(ScriptFault::At { line, kind }) => {
            let text = refusal_text(alloc, line, &kind)?;
            Ok(Ending {
                status: Status::BadScript,
                text,
            })
        }
        Err(ScriptFault::NoMemory) => Err(NoMemory),
    }
}

// The status of a run's verdict.
fn status_of(verdict: Verdict) -> Status
    ensures { result ≡ status_of verdict }
{
    match verdict {
        Verdict::Done => Status::Done,
        Verdict::Clash => Status::Clash,
    }
}

// The lines that show the blobs of lines of hex digits, or the first line that isn't hex.
fn lines_ending(alloc: Global, taken: &[u8]) -> Result<Ending, NoMemory>
    ensures { IfOk result (IsEndingFor Task.Show taken.now) }
{
    match show(alloc, taken) {
        Ok(text) => Ok(Ending {
            status: Status::Done,
            text,
        }),
        Err(ShowFault::NotHex { line }) => {
            let text = not_hex_text(alloc, line)?;
            Ok(Ending {
                status: Status::BadScript,
                text,
            })
        }
        Err(ShowFault::NoMemory) => Err(NoMemory),
    }
}
