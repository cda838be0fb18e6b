//! Documents of values, with an element for each field.

ghost use Rattle.std.specs.Prelude.{◌≡◌, ◌+◌, ◌≤◌, ◌++◌, length, drop, IfOk, OnOk};
ghost use Rattle.qe_document.specs.Names.{Distinct};
ghost use Rattle.qe_document.specs.Views.{plain};
ghost use Rattle.qe_layout.specs.Refusal.{Reads};
ghost use Rattle.qe_field.specs.Lookup.{known};
ghost use Rattle.qe_command_document.specs.Rising.{AreBelow};
ghost use Rattle.qe_command_document.specs.CellDocuments as documents;

use crate::part::{CellPart, Doc};
use qe_base::NoMemory;
use qe_command::SentCells;
use qe_command_parts::{id, sent};
use qe_document::{Document, Value};
use qe_field::{Field, is_reserved, known};
use qe_layout::{Kind, Layout, Malformed, Slots, arrange, refuse};
use std::alloc::Global;

/// The name of a document's id.
const ID: &str = "_id";

// What stands in a field of the schema.
fn field(alloc: Global, fields: &[Field], name: &str, value: Value) -> Result<CellPart, Malformed>
    requires { length fields.now ≤ 64 }
    ensures { Reads result (documents.field_reads (known fields.now name.now) name.now (plain value)) }
{
    match known(fields, name) {
        Some((_, kind)) => Ok(CellPart::Cell(sent(alloc, name, value, &kind)?)),
        None => refuse(alloc, name, Kind::NotInSchema),
    }
}

// The layout of a document that is inserted.
#[derive(Clone, Copy)]
struct DocLayout<'a> {
    fields: &'a [Field],
}

impl<'a> Layout for DocLayout<'a> {
    ghost use Rattle.std.specs.Prelude.{◌≤◌, length};
    ghost use Rattle.qe_command_document.specs.CellDocuments.{doc_reads, doc_rows};

    type Part = CellPart;

    ghost reads = { λ it. doc_reads it.fields.now };

    ghost rows = { λ it. doc_rows it.fields.now };

    ghost fits = { λ it. length it.fields.now ≤ 64 };

    #[tactic(auto, unfolding(crate::specs::CellDocuments::doc_reads))]
    fn read(&self, alloc: Global, name: &str, value: Value) -> Result<CellPart, Malformed> {
        if is_reserved(name) {
            refuse(alloc, name, Kind::ReservedName)
        } else if name == ID {
            Ok(CellPart::Id(id(alloc, name, value)?))
        } else {
            field(alloc, self.fields, name, value)
        }
    }

    fn count(&self) -> usize {
        self.fields.len() + 1
    }

    fn row(&self, place: usize) -> (&str, Option<Kind>) {
        if place == 0 {
            (ID, Some(Kind::Missing))
        } else {
            (self.fields[place - 1].path.as_str(), None)
        }
    }
}

// The layout of a set.
#[derive(Clone, Copy)]
struct SetLayout<'a> {
    fields: &'a [Field],
}

impl<'a> Layout for SetLayout<'a> {
    ghost use Rattle.std.specs.Prelude.{◌≤◌, length};
    ghost use Rattle.qe_command_document.specs.CellDocuments.{set_reads, field_rows};

    type Part = CellPart;

    ghost reads = { λ it. set_reads it.fields.now };

    ghost rows = { λ it. field_rows it.fields.now };

    ghost fits = { λ it. length it.fields.now ≤ 64 };

    #[tactic(auto, unfolding(crate::specs::CellDocuments::set_reads))]
    fn read(&self, alloc: Global, name: &str, value: Value) -> Result<CellPart, Malformed> {
        if is_reserved(name) || name == ID {
            refuse(alloc, name, Kind::ReservedName)
        } else {
            field(alloc, self.fields, name, value)
        }
    }

    fn count(&self) -> usize {
        self.fields.len()
    }

    fn row(&self, place: usize) -> (&str, Option<Kind>) {
        (self.fields[place].path.as_str(), None)
    }
}

// The id in a slot.
fn id_in(slot: Option<CellPart>) -> Value
    ensures { result ≡ documents.id_in slot }
{
    match slot {
        Some(CellPart::Id(id)) => id,
        _ => Value::Null,
    }
}

// The cells in the slots of so many fields, of which the first one's place is given.
fn cells_in(
    alloc: Global,
    count: usize,
    first: usize,
    mut slots: Slots<CellPart>,
) -> Result<SentCells, NoMemory>
    requires few { count ≤ 64 }
    requires slots { length slots ≡ first + count }
    ensures { IfOk result (λ cells. cells ≡ documents.cells_from 0 (drop first slots)) }
{
    let mut cells = SentCells::new(alloc);
    for i in 0..count {
        let slot = slots.take(first + i);
        put_cell(&mut cells, i as u32, slot)?;
    }
    Ok(cells)
}

// Adds the cell in a field's slot, if there is one.
fn put_cell(cells: &mut SentCells, number: u32, slot: Option<CellPart>) -> Result<(), NoMemory>
    requires { AreBelow number cells.old }
    ensures { OnOk result (cells.new ≡ cells.old ++ documents.cell_at number slot) }
{
    let _count = cells.len();
    match slot {
        Some(CellPart::Cell(cell)) => cells.push((number, cell)),
        _ => Ok(()),
    }
}

/// The document that an insert adds.
#[tactic(auto, unfolding(crate::specs::CellDocuments::doc_of))]
pub(crate) fn doc(alloc: Global, fields: &[Field], document: Document) -> Result<Doc, Malformed>
    requires few { length fields.now ≤ 64 }
    requires apart { Distinct (documents.doc_rows fields.now) }
    ensures { Reads result (documents.doc_of fields.now document) }
{
    let mut slots = arrange(alloc, &DocLayout { fields }, document)?;
    let id = id_in(slots.take(0));
    let cells = cells_in(alloc, fields.len(), 1, slots)?;
    Ok(Doc { id, cells })
}

/// The cells that an update sets.
#[tactic(auto, unfolding(crate::specs::CellDocuments::set_of))]
pub(crate) fn set(
    alloc: Global,
    fields: &[Field],
    document: Document,
) -> Result<SentCells, Malformed>
    requires few { length fields.now ≤ 64 }
    requires apart { Distinct (documents.field_rows fields.now) }
    ensures { Reads result (documents.set_of fields.now document) }
{
    let slots = arrange(alloc, &SetLayout { fields }, document)?;
    let cells = cells_in(alloc, fields.len(), 0, slots)?;
    Ok(cells)
}
