//! Payloads as values of command documents.

ghost use Rattle.std.specs.Prelude.{◌≡◌, ◌≤ℤ◌, pos, Ok, IfOk};
ghost use Rattle.qe_base.specs.Answers.{Answers};
ghost use Rattle.qe_document.specs.Faults.{encode_refusal};
ghost use Rattle.qe_document.specs.Views.{plain};
ghost use Rattle.qe_document.specs.Writing.{written_as};
ghost use Rattle.qe_field.specs.Judgements.{unless};
ghost use Rattle.qe_value.specs.declared.value.Plain.TheVariants as p;
ghost use Rattle.qe_insert.specs.Insert.{insert_at, insert_elements, written_insert, FitsInsert};
ghost use Rattle.qe_find.specs.Equal.{equal_at, written_equal};
ghost use Rattle.qe_find.specs.Range.{range_at, range_elements, written_range, FitsRange};
ghost use Rattle.qe_command_written.specs.Faults.{fault_in};

use qe_document::{EncodeFault, Value};
use qe_payload::{FindEqual, FindRange, InsertPayload, write_equal, write_insert, write_range};
use std::alloc::Global;

/// The subtype of encrypted values.
const ENCRYPTED: u8 = 6;

/// A payload that sets a field.
pub(crate) fn insert_value(alloc: Global, payload: &InsertPayload) -> Result<Value, EncodeFault>
    requires { FitsInsert payload.now }
    ensures exact { Answers plain encode_refusal result (unless (fault_in (written_as (insert_elements payload.now) (written_insert payload.now))) (Ok (p.Binary 6 (written_insert payload.now)))) }
    ensures again { IfOk result (λ _. insert_at (written_insert payload.now) ≡ Ok payload.now) }
{
    let bytes = write_insert(alloc, payload)?;
    Ok(Value::Binary {
        subtype: ENCRYPTED,
        bytes,
    })
}

/// A payload that finds a value in an equality field.
pub(crate) fn equal_value(alloc: Global, payload: &FindEqual) -> Result<Value, EncodeFault>
    requires { pos 0 ≤ℤ payload.now.cm }
    ensures exact { Answers plain encode_refusal result (Ok (p.Binary 6 (written_equal payload.now))) }
    ensures again { IfOk result (λ _. equal_at (written_equal payload.now) ≡ Ok payload.now) }
{
    let bytes = write_equal(alloc, payload)?;
    Ok(Value::Binary {
        subtype: ENCRYPTED,
        bytes,
    })
}

/// A payload that finds the values of an interval in a range field.
pub(crate) fn range_value(alloc: Global, payload: &FindRange) -> Result<Value, EncodeFault>
    requires { FitsRange payload.now }
    ensures exact { Answers plain encode_refusal result (unless (fault_in (written_as (range_elements payload.now) (written_range payload.now))) (Ok (p.Binary 6 (written_range payload.now)))) }
    ensures again { IfOk result (λ _. range_at (written_range payload.now) ≡ Ok payload.now) }
{
    let bytes = write_range(alloc, payload)?;
    Ok(Value::Binary {
        subtype: ENCRYPTED,
        bytes,
    })
}
