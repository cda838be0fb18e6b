//! A row aside: what it opens to, and what its unit writes.

ghost use Rattle.std.specs.Prelude.{◌≡◌, ◌+◌, ◌==◌, ◌&&◌, not, ◌++◌, ◌%◌, ◌^◌, OnOk};
ghost use Rattle.qe_esc.specs.Changes.{changed};
ghost use Rattle.qe_esc.specs.Pairs.{null_pair};
ghost use Rattle.qe_protocol.specs.Units.{token_for, compacted, cleaned, is_cleaned, is_mismatch, last_anchor, anchors_after, leaf_count};
ghost use Rattle.qe_protocol.specs.Counting.{counted};
ghost use Rattle.qe_compact.specs.Drafts.{count_of, IsSearch, IsHandled};

use crate::draft::Plan;
use qe_base::{Ids, JobKind, NoMemory};
use qe_esc::{Changes, Emu, Esc, RowKey, RowKind, plan_anchor};
use qe_tokens::{EcocToken, EscContention, FieldToken};

/// What was searched for, and found.
#[derive(Clone, Copy)]
pub(crate) struct Search {
    pub(crate) token: EscContention,
    pub(crate) found: Emu,
}

impl Search {
    // The last anchor's number, of 64 bits.
    fn last_anchor(&self) -> u64
        ensures { result ≡ (self.now.found.null_apos + self.now.found.hop) % 2 ^ 64 }
    {
        self.found.null_apos.wrapping_add(self.found.hop)
    }

    // How often the token's word was indexed, of 64 bits.
    fn number(&self) -> u64
        ensures { result ≡ (self.now.found.base + self.now.found.count) % 2 ^ 64 }
    {
        self.found.base.wrapping_add(self.found.count)
    }
}

/// The token that was sent for a field; zeros where none was.
pub(crate) fn token_for(tokens: &[FieldToken], field: u32) -> EcocToken
    ensures { result.0 ≡ token_for tokens.now field }
{
    for sent in tokens {
        if sent.field == field {
            return sent.token;
        }
    }
    EcocToken([0; 32])
}

/// 1 for a row of a leaf.
pub(crate) fn leaf_count(leaf: Option<u8>) -> u64
    ensures { result ≡ leaf_count leaf }
{
    match leaf {
        Some(1) => 1,
        _ => 0,
    }
}

/// Whether the token has no null anchor, no anchor and no position.
pub(crate) fn is_mismatch(found: &Emu) -> bool
    ensures { result ≡ (not found.now.has_null && (found.now.hop == 0 && (found.now.count == 0))) }
{
    !found.has_null && (found.hop == 0 && found.count == 0)
}

/// Plans what a job of a kind writes for a row's token.
pub(crate) fn handle(
    kind: JobKind,
    esc: &Esc,
    plan: &mut Plan,
    search: &Search,
    nonce: &[u8; 16],
) -> Result<(), NoMemory>
    requires { IsSearch (changed esc.now.rows plan.old.changes) search.now }
    ensures { OnOk result (IsHandled kind esc.now.rows plan.old plan.new (count_of search.now) nonce.now) }
{
    match kind {
        JobKind::Compact => compact(esc, &mut plan.changes, search, nonce),
        JobKind::Cleanup => {
            clean(esc, &mut plan.changes, search, nonce)?;
            doom(&mut plan.doomed, search)
        }
    }
}

// Compaction: the next anchor counts all positions, where there are any that the last one doesn't count.
fn compact(
    esc: &Esc,
    changes: &mut Changes,
    search: &Search,
    nonce: &[u8; 16],
) -> Result<(), NoMemory>
    requires { IsSearch (changed esc.now.rows changes.old) search.now }
    ensures { OnOk result (changed esc.now.rows changes.new ≡ compacted (changed esc.now.rows changes.old) (count_of search.now) nonce.now) }
{
    if search.found.count == 0 {
        return Ok(());
    }
    let key = RowKey::new(&search.token);
    let id = key.id(RowKind::Anchor, search.last_anchor().wrapping_add(1));
    plan_anchor(esc, changes, id, key.anchor_value(nonce, search.number()))
}

// Cleanup: the null anchor counts all anchors and all positions, unless it does already.
fn clean(
    esc: &Esc,
    changes: &mut Changes,
    search: &Search,
    nonce: &[u8; 16],
) -> Result<(), NoMemory>
    requires { IsSearch (changed esc.now.rows changes.old) search.now }
    ensures { OnOk result (changed esc.now.rows changes.new ≡ cleaned (changed esc.now.rows changes.old) (count_of search.now) nonce.now) }
{
    let last = search.last_anchor();
    let number = search.number();
    if is_cleaned(&search.found, last, number) {
        return Ok(());
    }
    let key = RowKey::new(&search.token);
    let value = key.null_value(nonce, last, number);
    changes.write(key.id(RowKind::Anchor, 0), Some(Some(value)))
}

// Whether the null anchor says these numbers.
fn is_cleaned(found: &Emu, last: u64, number: u64) -> bool
    ensures { result ≡ (found.now.has_null && (found.now.null_apos == last && (found.now.null_cpos == number))) }
{
    found.has_null && (found.null_apos == last && found.null_cpos == number)
}

// The anchors that were found are doomed.
fn doom(doomed: &mut Ids, search: &Search) -> Result<(), NoMemory>
    ensures { OnOk result (doomed.new ≡ doomed.old ++ anchors_after search.now.token.0 search.now.found.null_apos search.now.found.hop) }
{
    let key = RowKey::new(&search.token);
    for i in 0..search.found.hop {
        let number = search.found.null_apos.wrapping_add(i + 1);
        doomed.push(key.id(RowKind::Anchor, number))?;
    }
    Ok(())
}
