//! Cells as elements of documents.

ghost use Rattle.std.specs.Prelude.{◌≡◌, ◌++◌, ◌∷◌, [], false, Ok, IfOk};
ghost use Rattle.std.specs.List.{AllByRecursion};
ghost use Rattle.qe_base.specs.Answers.{Answers};
ghost use Rattle.qe_document.specs.Faults.{encode_refusal};
ghost use Rattle.qe_document.specs.Names.{is_named, Distinct};
ghost use Rattle.qe_document.specs.Views.{plain};
ghost use Rattle.qe_field.specs.Judgements.{unless};
ghost use Rattle.qe_field.specs.Lookup.{path_of};
ghost use Rattle.qe_command_written.specs.Faults.{cell_fault, cells_fault};
ghost use Rattle.qe_command_written.specs.Parts.{FitsCell, CellAgain};
ghost use Rattle.qe_command_written.specs.Written.{cell_elements, doc_elements, cell_value as value_of};

use crate::elements::add;
use crate::payloads::insert_value;
use qe_base::Duplicate;
use qe_command::SentCell;
use qe_document::{Document, EncodeFault, Value};
use qe_field::Field;
use std::alloc::Global;

/// The name of a document's id.
pub(crate) const ID: &str = "_id";

/// The path of a field.
pub(crate) fn path_at(fields: &[Field], number: u32) -> &str
    ensures { result.now ≡ path_of fields.now number }
{
    match fields.get(number as usize) {
        Some(field) => field.path.as_str(),
        None => "",
    }
}

fn cell_value(alloc: Global, cell: &SentCell) -> Result<Value, EncodeFault>
    requires { FitsCell cell.now }
    ensures exact { Answers plain encode_refusal result (unless (cell_fault cell.now) (Ok (value_of cell.now))) }
    ensures again { IfOk result (λ _. CellAgain cell.now) }
{
    match cell {
        SentCell::Plain(value) => {
            let Ok(value) = value.copy() else {
                return Err(EncodeFault::NoMemory);
            };
            Ok(value)
        }
        SentCell::Payload(payload) => insert_value(alloc, payload),
    }
}

// The document with a cell behind its elements.
fn put_cell(
    alloc: Global,
    document: Document,
    path: &str,
    cell: &SentCell,
) -> Result<Document, EncodeFault>
    requires fits { FitsCell cell.now }
    requires new { is_named path.now document ≡ false }
    ensures exact { Answers (λ it. it) encode_refusal result (unless (cell_fault cell.now) (Ok (document ++ (path.now, value_of cell.now) ∷ []))) }
    ensures again { IfOk result (λ _. CellAgain cell.now) }
{
    let value = cell_value(alloc, cell)?;
    add(alloc, document, path, value)
}

/// The document with the cells behind its elements.
pub(crate) fn put_cells(
    alloc: Global,
    mut document: Document,
    fields: &[Field],
    cells: &[(u32, SentCell)],
) -> Result<Document, EncodeFault>
    requires fits { AllByRecursion (λ cell. FitsCell cell.1) cells.now }
    requires apart { Distinct (document ++ cell_elements fields.now cells.now) }
    ensures exact { Answers (λ it. it) encode_refusal result (unless (cells_fault cells.now) (Ok (document ++ cell_elements fields.now cells.now))) }
    ensures again { IfOk result (λ _. AllByRecursion (λ cell. CellAgain cell.1) cells.now) }
{
    for (number, cell) in cells {
        document = put_cell(alloc, document, path_at(fields, *number), cell)?;
    }
    Ok(document)
}

/// A document that is inserted.
pub(crate) fn doc(
    alloc: Global,
    fields: &[Field],
    id: &Value,
    cells: &[(u32, SentCell)],
) -> Result<Document, EncodeFault>
    requires fits { AllByRecursion (λ cell. FitsCell cell.1) cells.now }
    requires apart { Distinct (doc_elements fields.now id.now cells.now) }
    ensures exact { Answers (λ it. it) encode_refusal result (unless (cells_fault cells.now) (Ok (doc_elements fields.now id.now cells.now))) }
    ensures again { IfOk result (λ _. AllByRecursion (λ cell. CellAgain cell.1) cells.now) }
{
    let Ok(id) = id.copy() else {
        return Err(EncodeFault::NoMemory);
    };
    let document = add(alloc, Document::new(alloc), ID, id)?;
    put_cells(alloc, document, fields, cells)
}
