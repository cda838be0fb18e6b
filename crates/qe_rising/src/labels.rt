//! Labels in rising order.

ghost use Rattle.std.specs.Prelude.{◌≡◌, IfOk, IsTrue};
ghost use Rattle.qe_labels.specs.Listed.{label_cmp};
ghost use Rattle.qe_label_list.specs.Order.{IsInOrder};
ghost use Rattle.qe_rising.specs.Rising.{LabelStandsBehind};

use qe_base::NoMemory;
use qe_label_list::{LabelList, label_order};
use qe_tokens::Label;
use std::cmp::Ordering;

fn is_before(one: &Label, other: &Label) -> bool
    ensures { IsTrue result → label_cmp one.now other.now ≡ Ordering.Less }
{
    label_order(one, other) == Ordering::Less
}

// Whether a label stands behind all others, since it does behind the last one.
fn stands_behind(list: &LabelList, label: &Label) -> Result<bool, NoMemory>
    ensures { IfOk result (λ behind. IsTrue behind → LabelStandsBehind list.now label.now) }
{
    if list.is_empty() {
        return Ok(true);
    }
    let last = list.label(list.len() - 1)?;
    Ok(is_before(&last, label))
}

/// Adds a label with its identifier, where it stands behind all others: whether it was added.
pub fn push_label(
    list: &mut LabelList,
    label: Label,
    identifier: [u8; 32],
) -> Result<bool, NoMemory>
    requires { IsInOrder list.old }
    ensures { IsInOrder list.new }
{
    if !stands_behind(list, &label)? {
        return Ok(false);
    }
    list.push(label, identifier)?;
    Ok(true)
}
