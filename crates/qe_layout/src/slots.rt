//! The slots of a layout's rows.

ghost use Rattle.std.specs.Prelude.{◌≡◌, Some, None, slice_set, replicate, IfOk};
ghost use Rattle.std.specs.Option.{option_copied};
ghost use Rattle.qe_layout.specs.Layouts.{in_slot};

use qe_base::NoMemory;
use std::alloc::Global;
use std::marker::Model;

/// What was read under the names of a layout's rows, by the rows' places. A slot whose row lacks is empty.
#[derive(Drop)]
pub struct Slots<P> {
    items: Vec<Option<P>>,
}

impl<P> Model for Slots<P> {
    ghost use Rattle.std.specs.Prelude.{List, Option};
    ghost use Rattle.std.specs.Coded.{coded_list, coded_option};

    ghost Value = { List (Option P) };

    ghost coded = { coded_list (coded_option P.code) };

    ghost view = { λ it. it.items.items };
}

impl<P: Drop> Slots<P> {
    /// So many slots, all empty.
    pub(crate) fn empty(alloc: Global, count: usize) -> Result<Self, NoMemory>
        ensures { IfOk result (λ slots. slots ≡ replicate count None) }
    {
        let mut items = Vec::with_capacity(alloc, count)?;
        for _ in 0..count {
            items.push(None)?;
        }
        Ok(Slots { items })
    }

    /// What stands in a slot.
    pub(crate) fn get(&self, place: usize) -> Option<&P>
        ensures { option_copied result ≡ in_slot self.now place }
    {
        match self.items.get(place) {
            Some(slot) => slot.as_ref(),
            None => None,
        }
    }

    /// Puts a part into a slot.
    pub(crate) fn put(&mut self, place: usize, part: P)
        ensures { self.new ≡ slice_set self.old place (Some part) }
    {
        if let Some(slot) = self.items.get_mut(place) {
            *slot = Some(part);
        }
    }

    /// Takes what stands in a slot, and leaves it empty.
    pub fn take(&mut self, place: usize) -> Option<P>
        ensures taken { result ≡ in_slot self.old place }
        ensures left { self.new ≡ slice_set self.old place None }
    {
        match self.items.get_mut(place) {
            Some(slot) => slot.take(),
            None => None,
        }
    }
}
