//! The lines that the program writes of what it refuses.

ghost use Rattle.std.specs.Prelude.{◌≡◌, IfOk};
ghost use Rattle.qe_due.specs.Text.{refusal_text, not_hex_text, too_long_text, usage_text};

use qe_base::{Bytes, NoMemory};
use qe_script::ScriptKind;
use std::alloc::Global;

/// The line of a script whose line of this number is refused.
#[tactic(auto, unfolding(crate::specs::Text::refusal_text))]
pub fn refusal_text(alloc: Global, number: u64, kind: &ScriptKind) -> Result<Bytes, NoMemory>
    ensures { IfOk result (λ text. text ≡ refusal_text number kind.now) }
{
    let line = qe_script::refusal_text(alloc, number, kind)?;
    let mut text = Bytes::from_slice(alloc, line.as_str().as_bytes())?;
    text.extend(b"\n")?;
    Ok(text)
}

/// The line of blobs whose line of this number isn't hex.
pub fn not_hex_text(alloc: Global, number: u64) -> Result<Bytes, NoMemory>
    ensures { IfOk result (λ text. text ≡ not_hex_text number) }
{
    let text = format!(in alloc; "bad line {number} NotHex\n")?;
    let bytes = Bytes::from_slice(alloc, text.as_bytes())?;
    Ok(bytes)
}

/// The line of an input that is too long.
pub fn too_long_text(alloc: Global) -> Result<Bytes, NoMemory>
    ensures { IfOk result (λ text. text ≡ too_long_text) }
{
    Bytes::from_slice(alloc, b"bad script too long\n")
}

/// The line of words that have no form.
pub fn usage_text(alloc: Global) -> Result<Bytes, NoMemory>
    ensures { IfOk result (λ text. text ≡ usage_text) }
{
    Bytes::from_slice(alloc, b"usage: qerun replay, show, make N SEED, crowd\n")
}
