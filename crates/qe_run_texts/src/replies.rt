//! The lines of replies, or their number and their hash.

ghost use Rattle.std.specs.Prelude.{◌≡◌, IfOk};
ghost use Rattle.qe_base.specs.Answers.{Answers};
ghost use Rattle.qe_field.specs.Judgements.{ahead, Leaves};
ghost use Rattle.qe_texts.specs.Faults.{print_refusal};
ghost use Rattle.qe_runs.specs.Texts as texts;

use crate::digest::digest_text;
use qe_base::{Bytes, NoMemory};
use qe_schema::{PlainReply, Schema};
use qe_texts::{PrintFault, reply_text};
use std::alloc::Global;

// Adds the line of a reply.
#[tactic(auto, unfolding(qe_runs::specs::Texts::reply_text))]
fn add_reply(
    alloc: Global,
    schema: &Schema,
    reply: &PlainReply,
    text: &mut Bytes,
) -> Result<(), PrintFault>
    ensures { Leaves print_refusal result text.new (ahead text.old (texts.reply_text schema.now reply.now)) }
{
    let line = reply_text(alloc, schema, reply)?;
    text.extend(line.as_str().as_bytes())?;
    text.extend(b"\n")?;
    Ok(())
}

fn reply_lines(alloc: Global, schema: &Schema, replies: &[PlainReply]) -> Result<Bytes, PrintFault>
    ensures { Answers (λ it. it) print_refusal result (texts.reply_texts schema.now replies.now) }
{
    let mut text = Bytes::new(alloc);
    for reply in replies {
        add_reply(alloc, schema, reply, &mut text)?;
    }
    Ok(text)
}

// `replies N sha256 HEX`.
fn brief_line(alloc: Global, count: usize, lines: &[u8]) -> Result<Bytes, NoMemory>
    ensures { IfOk result (λ text. text ≡ texts.brief_text count lines.now) }
{
    let digest = digest_text(alloc, lines)?;
    let line = format!(in alloc; "replies {count} sha256 {digest}\n")?;
    let text = Bytes::from_slice(alloc, line.as_bytes())?;
    Ok(text)
}

/// The lines of replies, in order; with `brief` the one line `replies N sha256 HEX` in their place, with their number and the
/// SHA-256 of all of them with their line feeds. It is `Unprintable` exactly where the line of a reply is.
#[tactic(auto, unfolding(qe_runs::specs::Texts::replies_text))]
pub fn replies_text(
    alloc: Global,
    schema: &Schema,
    brief: bool,
    replies: &[PlainReply],
) -> Result<Bytes, PrintFault>
    ensures exact { Answers (λ it. it) print_refusal result (texts.replies_text schema.now brief replies.now) }
{
    let lines = reply_lines(alloc, schema, replies)?;
    if brief {
        Ok(brief_line(alloc, replies.len(), lines.slice())?)
    } else {
        Ok(lines)
    }
}
