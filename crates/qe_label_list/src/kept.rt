//! The keys of the item of the word before.

ghost use Rattle.std.specs.Prelude.{◌≡◌, ◌<◌, ℕ, List, length};
ghost use Rattle.qe_tokens.specs.declared.tokens.RootKey.{RootKey};

use crate::tokens::{FieldKeys, ItemKeys};

/// An item of a field, and its keys.
#[derive(Drop)]
pub(crate) struct Kept<'a> {
    pub field: u32,
    pub item: &'a [u8],
    pub keys: ItemKeys,
}

impl<'a> Kept<'a> {
    ghost use Rattle.qe_label_list.specs.Kept.{IsKept, IsKeptIfAny};
    ghost use Rattle.qe_label_list.specs.Tokens.{AreOfFields};

    // The item's keys: those kept where they are of this item, or else new ones.
    pub(crate) fn of(
        kept: Option<Kept<'a>>,
        fields: &[FieldKeys],
        field: u32,
        item: &'a [u8],
    ) -> Kept<'a>
        requires { field < length fields.now }
        ensures field { result.field ≡ field }
        ensures item { result.item.now ≡ item.now }
        ensures keys { (roots : List RootKey) → AreOfFields fields.now roots → IsKeptIfAny roots kept.entry → IsKept roots result }
    {
        if let Some(same) = kept {
            if same.field == field && same.item == item {
                return same;
            }
        }
        Kept {
            field,
            item,
            keys: fields[field as usize].item(item),
        }
    }
}
