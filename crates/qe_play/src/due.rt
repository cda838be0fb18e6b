//! What is due of a script.

ghost use Rattle.std.specs.Prelude.{◌≡◌, length, Some, None, IfOk};
ghost use Rattle.qe_meant.specs.Held.{under_of};
ghost use Rattle.qe_labels.specs.Clashes.{first_clash};
ghost use Rattle.qe_runs.specs.Runs.{commands_of, IsRunOf};
ghost use Rattle.qe_strays.specs.Met.{met_of};
ghost use Rattle.qe_script.specs.Read.{IsScript};
ghost use Rattle.qe_play.specs.Due.{HasOneVerdict, IsDueAs, IsVerdict};
ghost use Rattle.qe_play.specs.Runs.{AreAnswered, IsClear, labels_in, WasRead};

use crate::clear::{a_clear_run_is_answered, a_clear_run_is_the_only_one};
use crate::labels::labels_of_run;
use crate::text::text_of_run;
use qe_base::{Bytes, NoMemory};
use qe_client::{Census, Client, Label};
use qe_engine::Engine;
use qe_labels::clashes_are_tested;
use qe_meant::a_script_is_meant;
use qe_plain::PlainReply;
use qe_protocol::JournalEntry;
use qe_run_texts::clash_line;
use qe_runs::a_run_without_a_clash_is_the_only_one;
use qe_script::Script;
use qe_script_run::{Ran, run_script};
use std::alloc::Global;

/// How a run of a script ends.
#[derive(Clone, Copy, Debug, PartialEq, Eq)]
pub enum Verdict {
    /// No two labels share an identifier.
    Done,
    /// Two labels share an identifier.
    Clash,
}

/// What is due of a script that was read.
#[derive(Drop)]
pub struct ScriptDue {
    /// How a run of the script ends.
    pub verdict: Verdict,
    /// The text of the run, or the line `clash LABEL LABEL` of the run's first clash.
    pub text: Bytes,
}

/// A script that was read has one verdict: it has no run without a clash beside one with a clash.
pub fn a_script_has_one_verdict(script: &Script)
    requires { IsScript script.now }
    ensures { HasOneVerdict script.now }
{
    a_script_is_meant(script);
    a_run_without_a_clash_is_the_only_one();
}

// The text of a run without a clash.
fn done(
    alloc: Global,
    script: &Script,
    engine: &Engine,
    replies: &[PlainReply],
    labels: usize,
) -> Result<ScriptDue, NoMemory>
    requires read { WasRead script.now }
    requires schema { engine.now.schema ≡ script.now.schema }
    requires run { IsRunOf script.now engine.now.journal }
    requires answers { AreAnswered script.now engine.now.journal replies.now }
    requires labels { labels ≡ length (labels_in script.now engine.now.journal) }
    requires none { first_clash (labels_in script.now engine.now.journal) ≡ None }
    ensures { IfOk result (λ due. IsDueAs script.now due.verdict due.text) }
{
    clashes_are_tested();
    let journal = engine.journal();
    a_clear_run_is_the_only_one(script, journal);
    a_clear_run_is_answered(script, journal, replies);
    let text = text_of_run(alloc, script, engine, replies, labels)?;
    Ok(ScriptDue {
        verdict: Verdict::Done,
        text,
    })
}

// The line of a run with a clash.
fn clashing(
    alloc: Global,
    script: &Script,
    journal: &[JournalEntry],
    first: &Label,
    second: &Label,
) -> Result<ScriptDue, NoMemory>
    requires read { WasRead script.now }
    requires run { IsRunOf script.now journal.now }
    requires clash { first_clash (labels_in script.now journal.now) ≡ Some (first.now, second.now) }
    ensures { IfOk result (λ due. IsDueAs script.now due.verdict due.text) }
{
    a_script_is_meant(script);
    a_run_without_a_clash_is_the_only_one();
    clashes_are_tested();
    let text = clash_line(alloc, &script.schema, first, second)?;
    Ok(ScriptDue {
        verdict: Verdict::Clash,
        text,
    })
}

// What is due of a run.
fn due_of_run(
    alloc: Global,
    script: &Script,
    client: &Client,
    engine: &Engine,
    census: Census,
    replies: &[PlainReply],
) -> Result<ScriptDue, NoMemory>
    requires read { WasRead script.now }
    requires schema { engine.now.schema ≡ script.now.schema }
    requires run { IsRunOf script.now engine.now.journal }
    requires client { client.now.sender.under ≡ under_of script.now }
    requires words { census ≡ met_of (under_of script.now) (commands_of script.now.lines) engine.now.journal }
    requires answers { AreAnswered script.now engine.now.journal replies.now }
    ensures { IfOk result (λ due. IsDueAs script.now due.verdict due.text) }
{
    let labels = labels_of_run(script, client, engine.journal(), census)?;
    let clash = Census::clash(&labels)?;
    match clash {
        None => done(alloc, script, engine, replies, labels.len()),
        Some((first, second)) => clashing(alloc, script, engine.journal(), &first, &second),
    }
}

/// Plays a script that was read: the text of its one run, or the line of the first clash of a run. The run's labels are
/// checked before any text is made. Only want of memory is answered otherwise.
pub fn script_due(alloc: Global, script: &Script) -> Result<ScriptDue, NoMemory>
    requires { WasRead script.now }
    ensures due { IfOk result (λ due. IsDueAs script.now due.verdict due.text) }
    ensures verdict { IfOk result (λ due. IsVerdict script.now due.verdict) }
{
    let Ran {
        engine,
        clients,
        census,
        replies,
    } = run_script(alloc, script)?;
    due_of_run(alloc, script, &clients[0], &engine, census, replies.slice())
}
