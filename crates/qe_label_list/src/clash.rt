//! The first two rows of a list with one identifier.

ghost use Rattle.std.specs.Prelude.{◌≡◌, IfOk, map};
ghost use Rattle.qe_tokens.specs.Labels.{is_tag};
ghost use Rattle.qe_labels.specs.Clashes.{first_repeat, same_key};
ghost use Rattle.qe_label_list.specs.Keys.{key_at};

use qe_base::NoMemory;
use qe_label_rows::Row;
use qe_tokens::LabelKind;
use std::alloc::Global;
use std::collections::HashMap;

// Whether the label is a tag, which is told apart from other tags alone.
fn is_tag_kind(kind: LabelKind) -> bool
    ensures { result ≡ is_tag kind }
{
    match kind {
        LabelKind::Position | LabelKind::Anchor => false,
        LabelKind::Tag => true,
    }
}

// What has to differ from row to row: the identifier, of tags among themselves and of all others.
fn key_of(row: &Row) -> (bool, [u8; 32])
    ensures { result ≡ key_at row.now }
{
    (is_tag_kind(row.kind), row.identifier)
}

// The first row whose identifier stood before in its group, behind the row where it first stood. Each identifier is noted with the
// first place that has it.
pub(crate) fn first_repeat_of(
    alloc: Global,
    rows: &[Row],
) -> Result<Option<(usize, usize)>, NoMemory>
    ensures { IfOk result (λ found. found ≡ first_repeat same_key (map key_at rows.now)) }
{
    let mut seen: HashMap<(bool, [u8; 32]), usize> = HashMap::with_capacity(alloc, rows.len())?;
    for (place, row) in rows.iter().enumerate() {
        let key = key_of(row);
        match seen.get(&key) {
            Some(first) => return Ok(Some((*first, place))),
            None => {
                seen.insert(key, place)?;
            }
        }
    }
    Ok(None)
}
