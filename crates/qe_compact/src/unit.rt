//! One unit, and all units of a step.

ghost use Rattle.std.specs.Prelude.{◌≡◌, ◌+◌, ◌^◌, ◌<◌, ◌∷◌, drop, IfOk, OnOk};
ghost use Rattle.qe_esc.specs.Changes.{changed};
ghost use Rattle.qe_compact.specs.Drafts.{drafted, IsSearch, IsWithin};
ghost use Rattle.qe_compact.specs.Turns.{IsUnit, IsRun};

use crate::draft::{Draft, Standing, Subject, next_subject};
use crate::rows::{Search, handle, is_mismatch, leaf_count, token_for};
use qe_base::{Count, NoMemory};
use qe_ecoc::{Entry, Opened, open_entry};
use qe_esc::{Overlay, emu_of};
use qe_tokens::EscContention;

/// What comes after a unit.
#[derive(Clone, Copy)]
pub(crate) enum Turn {
    /// The next unit.
    On,
    /// Nothing is left.
    Done,
    /// A row of this field opened to a token without rows.
    Mismatch(u32),
}

/// Does units, one for each nonce, as long as something is left and no token is without rows. Answers the field of such a
/// token's row.
pub(crate) fn run(
    standing: &Standing,
    draft: &mut Draft,
    nonces: &[[u8; 16]],
) -> Result<Option<u32>, NoMemory>
    requires { IsWithin standing.now.upkeep.now draft.old.plan draft.old.taken }
    ensures run { IfOk result (λ mismatch. IsRun standing.now.job.now.kind standing.now.job.now.tokens nonces.now (drafted standing.now.esc.now.rows standing.now.upkeep.now draft.old) (drafted standing.now.esc.now.rows standing.now.upkeep.now draft.new) draft.old.counts draft.new.counts draft.old.opened draft.new.opened mismatch) }
    ensures within { OnOk result (IsWithin standing.now.upkeep.now draft.new.plan draft.new.taken) }
{
    for nonce in nonces {
        match unit(standing, draft, nonce)? {
            Turn::On => {}
            Turn::Done => return Ok(None),
            Turn::Mismatch(field) => return Ok(Some(field)),
        }
    }
    Ok(None)
}

// Does a unit.
fn unit(standing: &Standing, draft: &mut Draft, nonce: &[u8; 16]) -> Result<Turn, NoMemory>
    requires { IsWithin standing.now.upkeep.now draft.old.plan draft.old.taken }
    ensures unit { IfOk result (λ turn. IsUnit standing.now.job.now.kind standing.now.job.now.tokens nonce.now (drafted standing.now.esc.now.rows standing.now.upkeep.now draft.old) (drafted standing.now.esc.now.rows standing.now.upkeep.now draft.new) draft.old.counts draft.new.counts draft.old.opened draft.new.opened turn) }
    ensures within { OnOk result (IsWithin standing.now.upkeep.now draft.new.plan draft.new.taken) }
{
    match next_subject(standing, draft) {
        Subject::Row(row) => open_row(standing, draft, &row, nonce),
        Subject::Doomed(id) => {
            draft.plan.changes.write(id, None)?;
            draft.taken.doomed += 1;
            Ok(Turn::On)
        }
        Subject::Captured(id) => {
            draft.plan.changes.write(id, None)?;
            draft.taken.captured += 1;
            Ok(Turn::On)
        }
        Subject::Nothing => Ok(Turn::Done),
    }
}

// Opens the first row aside, and handles it where its token has rows.
fn open_row(
    standing: &Standing,
    draft: &mut Draft,
    row: &Entry,
    nonce: &[u8; 16],
) -> Result<Turn, NoMemory>
    requires within { IsWithin standing.now.upkeep.now draft.old.plan draft.old.taken }
    requires small { draft.old.taken.rows + 1 < 2 ^ 64 }
    requires first { drop draft.old.taken.rows standing.now.upkeep.now.aside ≡ row.now ∷ drop (draft.old.taken.rows + 1) standing.now.upkeep.now.aside }
    ensures unit { IfOk result (λ turn. IsUnit standing.now.job.now.kind standing.now.job.now.tokens nonce.now (drafted standing.now.esc.now.rows standing.now.upkeep.now draft.old) (drafted standing.now.esc.now.rows standing.now.upkeep.now draft.new) draft.old.counts draft.new.counts draft.old.opened draft.new.opened turn) }
    ensures within { OnOk result (IsWithin standing.now.upkeep.now draft.new.plan draft.new.taken) }
{
    let opened = open_entry(row, &token_for(standing.job.tokens.slice(), row.field));
    let search = search_for(standing, draft, &opened);
    draft.counts.push(Count {
        token: opened.token,
        hop: search.found.hop,
        positions: search.found.count,
    })?;
    draft.opened.push(u64::from(row.field))?;
    if is_mismatch(&search.found) {
        return Ok(Turn::Mismatch(row.field));
    }
    handle(
        standing.job.kind,
        standing.esc,
        &mut draft.plan,
        &search,
        nonce,
    )?;
    draft.taken.rows += 1;
    draft.taken.leaves += leaf_count(opened.leaf);
    Ok(Turn::On)
}

// Searches rows as they will be.
fn search_for(standing: &Standing, draft: &Draft, opened: &Opened) -> Search
    ensures token { result.token.0 ≡ opened.now.token }
    ensures search { IsSearch (changed standing.now.esc.now.rows draft.now.plan.changes) result }
{
    let rows = Overlay {
        rows: standing.esc,
        changes: &draft.plan.changes,
    };
    let token = EscContention(opened.token);
    Search {
        token,
        found: emu_of(&rows, &token),
    }
}
