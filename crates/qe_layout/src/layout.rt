//! Layouts, and the one pass that reads a document under one.

ghost use Rattle.std.specs.Prelude.{◌≡◌, ◌<◌, List, length, slice_get, slice_set, Some, Ok, IfOk};
ghost use Rattle.std.specs.Option.{option_copied, option_map_or};
ghost use Rattle.qe_document.specs.Names.{Distinct};
ghost use Rattle.qe_document.specs.Views.{plain};
ghost use Rattle.qe_layout.specs.Refusal.{Reads, bind, map_read};
ghost use Rattle.qe_layout.specs.Layouts.{Element, Reader, Rows, checked, complete, arranged, slots_of, place_from, lack};

use crate::malformed::{Kind, Malformed, refuse};
use crate::slots::Slots;
use qe_document::{Document, Value};
use std::alloc::Global;

/// The table of a kind of document. A table may know more than its names, as a schema, of which `fits` says what it
/// has to be.
pub trait Layout {
    /// What is read under a name.
    type Part: Drop;

    /// How each element is read.
    ghost reads: { Self → Reader Self.Part };

    /// The names in order, and what the lack of each is called.
    ghost rows: { Self → Rows };

    /// What the table has to be.
    ghost fits: { Self → Type 0 } = { λ _. Unit {0} };

    /// Reads an element.
    fn read(&self, alloc: Global, name: &str, value: Value) -> Result<Self::Part, Malformed>
        requires { fits self.now }
        ensures { Reads result (reads self.now name.now (plain value)) };

    /// The number of rows.
    fn count(&self) -> usize
        ensures { result ≡ length (rows self.now) };

    /// The name of a row, and what the lack of it is called.
    fn row(&self, place: usize) -> (&str, Option<Kind>)
        requires { place < length (rows self.now) }
        ensures { Some (result.0.now, result.1) ≡ slice_get (rows self.now) place };
}

/// Reads a document under a layout: each element in the order in which it stands, and then what lacks.
pub fn arrange<L: Layout>(
    alloc: Global,
    layout: &L,
    document: Document,
) -> Result<Slots<L::Part>, Malformed>
    requires fits { L.fits layout.now }
    requires apart { Distinct (L.rows layout.now) }
    ensures slots { IfOk result (λ slots. slots ≡ slots_of (L.reads layout.now) (L.rows layout.now) document) }
    ensures distinct { IfOk result (λ _. Distinct document) }
    ensures exact { Reads result (arranged (L.reads layout.now) (L.rows layout.now) document) }
{
    let slots = fill_all(alloc, layout, document)?;
    check_rows(alloc, layout, &slots)?;
    Ok(slots)
}

// The slots with every element's part, or the first refusal of an element.
fn fill_all<L: Layout>(
    alloc: Global,
    layout: &L,
    document: Document,
) -> Result<Slots<L::Part>, Malformed>
    requires fits { L.fits layout.now }
    requires apart { Distinct (L.rows layout.now) }
    ensures distinct { IfOk result (λ _. Distinct document) }
    ensures exact { Reads result (bind (checked (L.reads layout.now) document) (λ _. Ok (slots_of (L.reads layout.now) (L.rows layout.now) document))) }
{
    let mut slots = Slots::empty(alloc, layout.count())?;
    let fields = document.into_fields();
    for (name, value) in fields {
        slots = fill(alloc, layout, slots, name.as_str(), value)?;
    }
    Ok(slots)
}

// The slots with an element's part in the slot of its row, if there is one.
fn fill<L: Layout>(
    alloc: Global,
    layout: &L,
    mut slots: Slots<L::Part>,
    name: &str,
    value: Value,
) -> Result<Slots<L::Part>, Malformed>
    requires { L.fits layout.now }
    ensures { Reads result (map_read (λ part. option_map_or (λ place. slice_set slots place (Some part)) (place_from name.now 0 (L.rows layout.now)) slots) (L.reads layout.now name.now (plain value))) }
{
    let part = layout.read(alloc, name, value)?;
    if let Some(place) = place_of(layout, name) {
        slots.put(place, part);
    }
    Ok(slots)
}

// The place of a name's row.
fn place_of<L: Layout>(layout: &L, name: &str) -> Option<usize>
    ensures { result ≡ place_from name.now 0 (L.rows layout.now) }
{
    for place in 0..layout.count() {
        let (other, _) = layout.row(place);
        if name == other {
            return Some(place);
        }
    }
    None
}

// Refuses the first needed row whose slot is empty.
fn check_rows<L: Layout>(alloc: Global, layout: &L, slots: &Slots<L::Part>) -> Result<(), Malformed>
    ensures { (elements : List Element) → slots.now ≡ slots_of (L.reads layout.now) (L.rows layout.now) elements → checked (L.reads layout.now) elements ≡ Ok tt → Reads result (complete (L.rows layout.now) elements) }
{
    for place in 0..layout.count() {
        let (name, need) = layout.row(place);
        check_row(alloc, name, need, slots.get(place))?;
    }
    Ok(())
}

fn check_row<P>(
    alloc: Global,
    name: &str,
    need: Option<Kind>,
    slot: Option<&P>,
) -> Result<(), Malformed>
    ensures { Reads result (lack name.now need (option_copied slot.entry)) }
{
    match (slot, need) {
        (None, Some(kind)) => refuse(alloc, name, kind),
        _ => Ok(()),
    }
}
