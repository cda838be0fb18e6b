//! Documents and arrays that stand under a name.

ghost use Rattle.qe_document.specs.Views.{plain, fields_of, items_of};
ghost use Rattle.qe_layout.specs.Documents.{of_type, count_reads, each_read, items_reads, bounded_reads};
ghost use Rattle.qe_layout.specs.Layouts.{Reader};
ghost use Rattle.qe_layout.specs.Refusal.{Reads};

use crate::malformed::{Kind, Malformed, inside, refuse};
use itoa::Buffer;
use qe_base::Listing;
use qe_document::{Document, Value, Values};
use std::alloc::Global;

/// The document that stands under a name.
#[tactic(auto, using(crate::proofs::PlainLemmas::parts_of_plain))]
pub fn document(alloc: Global, name: &str, value: Value) -> Result<Document, Malformed>
    ensures { Reads result (of_type name.now (fields_of (plain value))) }
{
    match value.into_document() {
        Some(document) => Ok(document),
        None => refuse(alloc, name, Kind::WrongType),
    }
}

/// How the items of an array are read.
pub trait Item {
    /// What an item is read as.
    type Out: Drop;

    /// How an item is read, by its index as a name.
    ghost reads: { Self → Reader Self.Out };

    /// What the reader has to be.
    ghost fits: { Self → Type 0 } = { λ _. Unit {0} };

    /// Reads an item.
    fn item(&self, alloc: Global, index: &str, value: Value) -> Result<Self::Out, Malformed>
        requires { fits self.now }
        ensures { Reads result (reads self.now index.now (plain value)) };
}

/// How many items an array may have.
#[derive(Clone, Copy)]
pub struct Bounds {
    /// Whether there has to be one.
    pub some: bool,
    /// The greatest number.
    pub most: usize,
}

/// The items of an array that stands under a name.
pub fn items<I: Item>(
    alloc: Global,
    item: &I,
    name: &str,
    value: Value,
) -> Result<Listing<I::Out>, Malformed>
    requires { I.fits item.now }
    ensures { Reads result (items_reads (I.reads item.now) name.now (plain value)) }
{
    let values = array(alloc, name, value)?;
    inside(alloc, name, each(alloc, item, values))
}

/// The items of an array of some number of them: its type, its number of items, and then the items.
pub fn bounded_items<I: Item>(
    alloc: Global,
    item: &I,
    bounds: Bounds,
    name: &str,
    value: Value,
) -> Result<Listing<I::Out>, Malformed>
    requires { I.fits item.now }
    ensures { Reads result (bounded_reads bounds.some bounds.most (I.reads item.now) name.now (plain value)) }
{
    let values = array(alloc, name, value)?;
    check_count(alloc, name, bounds, values.len())?;
    let read = each(alloc, item, values);
    inside(alloc, name, read)
}

#[tactic(auto, using(crate::proofs::PlainLemmas::parts_of_plain))]
fn array(alloc: Global, name: &str, value: Value) -> Result<Values, Malformed>
    ensures { Reads result (of_type name.now (items_of (plain value))) }
{
    match value.into_array() {
        Some(values) => Ok(values),
        None => refuse(alloc, name, Kind::WrongType),
    }
}

fn check_count(alloc: Global, name: &str, bounds: Bounds, count: usize) -> Result<(), Malformed>
    ensures { Reads result (count_reads bounds.some bounds.most name.now count) }
{
    if bounds.some && count == 0 {
        refuse(alloc, name, Kind::NoEdges)
    } else if count > bounds.most {
        refuse(alloc, name, Kind::TooManyEdges(count as u64))
    } else {
        Ok(())
    }
}

fn each<I: Item>(alloc: Global, item: &I, values: Values) -> Result<Listing<I::Out>, Malformed>
    requires { I.fits item.now }
    ensures { Reads result (each_read (I.reads item.now) 0 values) }
{
    let mut read = Listing::new(alloc);
    for value in values.into_vec() {
        let mut buffer = Buffer::new();
        let next = item.item(alloc, buffer.format(read.len()), value)?;
        read.push(next)?;
    }
    Ok(read)
}
