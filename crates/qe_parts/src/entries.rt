//! Arrays of documents that are written from lists of entries.

ghost use Rattle.std.specs.Prelude.{◌≡◌, List, map, IfOk};
ghost use Rattle.std.specs.List.{AllByRecursion};
ghost use Rattle.qe_document.specs.Views.{plain};
ghost use Rattle.qe_value.specs.declared.value.Plain.TheVariants as p;
ghost use Rattle.qe_layout.specs.Layouts.{Element};

use qe_base::NoMemory;
use qe_document::{Document, Value, Values};
use std::alloc::Global;

/// How an entry is written as a document of an array.
pub trait Entry {
    /// The entries.
    type Of: Drop;

    /// The elements in written order.
    ghost elements: { Self.Of → List Element };

    /// The elements are read as the entry again.
    ghost again: { Self.Of → Type 0 };

    /// The document of an entry.
    fn write(&self, alloc: Global, of: &Self::Of) -> Result<Document, NoMemory>
        ensures elements { IfOk result (λ document. document ≡ elements of.now) }
        ensures again { IfOk result (λ _. again of.now) };
}

/// The array of some entries.
pub fn array_of<E: Entry>(alloc: Global, entry: &E, of: &[E::Of]) -> Result<Value, NoMemory>
    ensures array { IfOk result (λ value. plain value ≡ p.Array (map (λ one. p.Doc (E.elements one)) of.now)) }
    ensures again { IfOk result (λ _. AllByRecursion E.again of.now) }
{
    let items = trees_of(alloc, entry, of)?;
    Ok(Value::Array(items))
}

fn trees_of<E: Entry>(alloc: Global, entry: &E, of: &[E::Of]) -> Result<Values, NoMemory>
    ensures trees { IfOk result (λ items. items ≡ map (λ one. p.Doc (E.elements one)) of.now) }
    ensures again { IfOk result (λ _. AllByRecursion E.again of.now) }
{
    let mut items = Values::new(alloc);
    for i in 0..of.len() {
        let document = entry.write(alloc, &of[i])?;
        items.push(Value::Doc(document))?;
    }
    Ok(items)
}
