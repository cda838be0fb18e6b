//! The line that ends the text of a run.

ghost use Rattle.std.specs.Prelude.{◌≡◌, IfOk};
ghost use Rattle.qe_engine.specs.Engines.{state_now};
ghost use Rattle.qe_run_texts.specs.Closing as closing;

use crate::digest::digest_text;
use qe_base::{Bytes, NoMemory};
use qe_engine::Engine;
use std::alloc::Global;

// `end labels N esc E ecoc C digest H`.
fn counts_line(
    alloc: Global,
    labels: usize,
    esc: u64,
    ecoc: u64,
    dump: &[u8],
) -> Result<Bytes, NoMemory>
    ensures { IfOk result (λ line. line ≡ closing.counts_line labels esc ecoc dump.now) }
{
    let digest = digest_text(alloc, dump)?;
    let line = format!(in alloc; "end labels {labels} esc {esc} ecoc {ecoc} digest {digest}\n")?;
    Bytes::from_slice(alloc, line.as_bytes())
}

/// The line `end labels N esc E ecoc C digest H` of an engine, where a run has `labels` labels: E ESC rows, which
/// are those for positions and anchors; C ECOC rows, which the next compaction or cleanup reads, none of them an ESC row or
/// aside; and the SHA-256 of the dump.
#[tactic(auto, unfolding(crate::specs::Closing::closing_line))]
pub fn closing_line(alloc: Global, engine: &Engine, labels: usize) -> Result<Bytes, NoMemory>
    ensures { IfOk result (λ line. line ≡ closing.closing_line engine.now.schema (state_now engine.now) labels) }
{
    let esc = engine.esc_rows();
    let ecoc = engine.ecoc_rows();
    let dump = engine.dump()?;
    counts_line(alloc, labels, esc, ecoc, dump.slice())
}
