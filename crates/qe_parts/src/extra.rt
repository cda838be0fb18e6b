//! What payloads carry unread: the elements `sp`, `pn`, `tf`, `mn` and `mx`, in this order.

ghost use Rattle.std.specs.Prelude.{◌≡◌, ◌++◌, false, IfOk, OnOk};
ghost use Rattle.qe_document.specs.Names.{is_named, value_named};
ghost use Rattle.qe_parts.specs.Carried.{extra_names, carried_one, extra_in, picked_one, picked, AreNew};

use crate::parts::Part;
use crate::written::put;
use qe_base::{Duplicate, NoMemory};
use qe_document::Document;
use std::alloc::Global;

fn put_slot(
    alloc: Global,
    extra: &mut Document,
    name: &str,
    slot: Option<Part>,
) -> Result<(), NoMemory>
    requires { is_named name.now extra.old ≡ false }
    ensures { OnOk result (extra.new ≡ extra.old ++ carried_one name.now slot) }
{
    match slot {
        Some(Part::Carried(carried)) => put(alloc, extra, name, carried.into_value()),
        _ => Ok(()),
    }
}

/// What stands in the slots of the names that are carried unread, in the names' order.
#[tactic(auto, using(crate::proofs::CarriedLemmas::slot_new))]
pub fn extra_in(
    alloc: Global,
    sp: Option<Part>,
    pn: Option<Part>,
    tf: Option<Part>,
    mn: Option<Part>,
    mx: Option<Part>,
) -> Result<Document, NoMemory>
    ensures { IfOk result (λ extra. extra ≡ extra_in sp pn tf mn mx) }
{
    let mut extra = Document::new(alloc);
    put_slot(alloc, &mut extra, "sp", sp)?;
    put_slot(alloc, &mut extra, "pn", pn)?;
    put_slot(alloc, &mut extra, "tf", tf)?;
    put_slot(alloc, &mut extra, "mn", mn)?;
    put_slot(alloc, &mut extra, "mx", mx)?;
    Ok(extra)
}

fn carry(
    alloc: Global,
    document: &Document,
    name: &str,
    extra: &mut Document,
) -> Result<(), NoMemory>
    requires { is_named name.now extra.old ≡ false }
    ensures { OnOk result (extra.new ≡ extra.old ++ picked_one name.now (value_named name.now document.now)) }
{
    match document.get(name) {
        Some(value) => {
            let copied = value.copy()?;
            put(alloc, extra, name, copied)
        }
        None => Ok(()),
    }
}

/// Adds what stands under the names that are carried unread, in their order.
#[tactic(auto, using(crate::proofs::CarriedLemmas::carried_new))]
pub fn carry_all(alloc: Global, document: &Document, extra: &mut Document) -> Result<(), NoMemory>
    requires { AreNew extra_names extra.old }
    ensures { OnOk result (extra.new ≡ extra.old ++ picked extra_names document.now) }
{
    carry(alloc, document, "sp", extra)?;
    carry(alloc, document, "pn", extra)?;
    carry(alloc, document, "tf", extra)?;
    carry(alloc, document, "mn", extra)?;
    carry(alloc, document, "mx", extra)
}
