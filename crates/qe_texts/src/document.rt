//! Documents and values as JSON.

ghost use Rattle.std.specs.Prelude.{◌≡◌, string_bytes};
ghost use Rattle.serde_json.specs.View.{view, members_view};
ghost use Rattle.qe_base.specs.Answers.{Answers};
ghost use Rattle.qe_bson.specs.JsonFaults.{json_refusal};
ghost use Rattle.qe_value.specs.Views.{plain};
ghost use Rattle.qe_schema.specs.Judgements.{Leaves};
ghost use Rattle.qe_texts.specs.Documents as documents;
ghost use Rattle.qe_texts.specs.Faults.{print_refusal};

use crate::fault::PrintFault;
use qe_bson::{JsonFault, Value, to_json};
use qe_field::path_of;
use qe_schema::{Field, PlainCell, PlainDocument};
use serde_json::{Map, Value as Json, put};
use std::alloc::Global;

/// The JSON of a value, as text.
pub(crate) fn value_text(alloc: Global, value: &Value) -> Result<String, PrintFault>
    ensures { Answers string_bytes print_refusal result (documents.value_text (plain value.now)) }
{
    match to_json(alloc, value) {
        Ok(json) => Ok(json.to_string(alloc)?),
        Err(JsonFault::NoMemory) => Err(PrintFault::NoMemory),
        Err(_) => Err(PrintFault::Unprintable),
    }
}

// Puts the cells in, each under its field's path.
fn put_cells(
    alloc: Global,
    fields: &[Field],
    cells: &[PlainCell],
    members: &mut Map<String, Json>,
) -> Result<(), JsonFault>
    ensures { Leaves json_refusal result (members_view members.new.entries) (documents.with_cells fields.now cells.now (members_view members.old.entries)) }
{
    for cell in cells {
        let json = to_json(alloc, cell.value.value())?;
        put(members, alloc, path_of(fields, cell.field), json)?;
    }
    Ok(())
}

fn document_json(
    alloc: Global,
    fields: &[Field],
    document: &PlainDocument,
) -> Result<Json, JsonFault>
    ensures { Answers view json_refusal result (documents.document_json fields.now document.now) }
{
    let id = to_json(alloc, document.id.value())?;
    let mut members = Map::new(alloc);
    put(&mut members, alloc, "_id", id)?;
    put_cells(alloc, fields, document.cells.slice(), &mut members)?;
    Ok(Json::Object(members))
}

/// The JSON of a document, as text, with its names in byte order.
pub(crate) fn document_text(
    alloc: Global,
    fields: &[Field],
    document: &PlainDocument,
) -> Result<String, PrintFault>
    ensures { Answers string_bytes print_refusal result (documents.document_text fields.now document.now) }
{
    match document_json(alloc, fields, document) {
        Ok(json) => Ok(json.to_string(alloc)?),
        Err(JsonFault::NoMemory) => Err(PrintFault::NoMemory),
        Err(_) => Err(PrintFault::Unprintable),
    }
}
