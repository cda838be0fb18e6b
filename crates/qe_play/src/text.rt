//! The text of a run.

ghost use Rattle.std.specs.Prelude.{◌≡◌, length, Ok, IfOk};
ghost use Rattle.qe_encodes.specs.Kept.{outcomes_of, replies_due};
ghost use Rattle.qe_runs.specs.Runs.{commands_of};
ghost use Rattle.qe_runs.specs.Texts.{replies_text as text_of_replies};
ghost use Rattle.qe_play.specs.Runs.{ArePrinted, labels_in, run_text};

use qe_base::{Bytes, NoMemory};
use qe_engine::Engine;
use qe_plain::PlainReply;
use qe_run_texts::{closing_line, replies_text};
use qe_schema::Schema;
use qe_script::Script;
use qe_texts::{PrintFault, what_is_unprintable_in_a_reply};
use std::alloc::Global;

// The lines of replies that have lines.
fn lines_of(
    alloc: Global,
    schema: &Schema,
    brief: bool,
    replies: &[PlainReply],
) -> Result<Bytes, NoMemory>
    requires { ArePrinted schema.now replies.now }
    ensures { IfOk result (λ lines. text_of_replies schema.now brief replies.now ≡ Ok lines) }
{
    match replies_text(alloc, schema, brief, replies) {
        Ok(lines) => Ok(lines),
        Err(PrintFault::Unprintable) => unreachable!(),
        Err(PrintFault::NoMemory) => Err(NoMemory),
    }
}

/// The text of a run: the lines of the replies that are due, and the line of the engine's state and the labels.
pub(crate) fn text_of_run(
    alloc: Global,
    script: &Script,
    engine: &Engine,
    replies: &[PlainReply],
    labels: usize,
) -> Result<Bytes, NoMemory>
    requires schema { engine.now.schema ≡ script.now.schema }
    requires due { replies.now ≡ replies_due (commands_of script.now.lines) (outcomes_of engine.now.journal) }
    requires printed { ArePrinted script.now.schema replies.now }
    requires labels { labels ≡ length (labels_in script.now engine.now.journal) }
    ensures { IfOk result (λ text. run_text script.now engine.now.journal ≡ Ok text) }
{
    let mut text = lines_of(alloc, &script.schema, script.brief, replies)?;
    let closing = closing_line(alloc, engine, labels)?;
    text.extend(closing.slice())?;
    Ok(text)
}
