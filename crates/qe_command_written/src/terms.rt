//! Filters as values of documents.

ghost use Rattle.std.specs.Prelude.{◌≡◌, map, Ok, IfOk};
ghost use Rattle.std.specs.List.{AllByRecursion};
ghost use Rattle.qe_base.specs.Answers.{Answers};
ghost use Rattle.qe_document.specs.Faults.{encode_refusal};
ghost use Rattle.qe_document.specs.Views.{plain};
ghost use Rattle.qe_field.specs.Judgements.{unless};
ghost use Rattle.qe_command_written.specs.Faults.{term_fault, terms_fault};
ghost use Rattle.qe_command_written.specs.Parts.{FitsTerm, TermAgain};
ghost use Rattle.qe_command_written.specs.Written as written;

use crate::cells::{ID, path_at};
use crate::elements::add;
use crate::payloads::{equal_value, range_value};
use qe_base::Duplicate;
use qe_command::SentTerm;
use qe_document::{Document, EncodeFault, Value, Values};
use qe_field::Field;
use std::alloc::Global;

fn term_name<'a>(fields: &'a [Field], term: &SentTerm) -> &'a str
    ensures { result.now ≡ written.term_name fields.now term.now }
{
    match term {
        SentTerm::Id(_) => ID,
        SentTerm::Equal { field, .. } => path_at(fields, *field),
        SentTerm::Range { field, .. } => path_at(fields, *field),
    }
}

fn sought_value(alloc: Global, term: &SentTerm) -> Result<Value, EncodeFault>
    requires { FitsTerm term.now }
    ensures exact { Answers plain encode_refusal result (unless (term_fault term.now) (Ok (written.sought_value term.now))) }
    ensures again { IfOk result (λ _. TermAgain term.now) }
{
    match term {
        SentTerm::Id(id) => {
            let Ok(id) = id.copy() else {
                return Err(EncodeFault::NoMemory);
            };
            Ok(id)
        }
        SentTerm::Equal { payload, .. } => equal_value(alloc, payload),
        SentTerm::Range { payload, .. } => range_value(alloc, payload),
    }
}

fn term_value(alloc: Global, fields: &[Field], term: &SentTerm) -> Result<Value, EncodeFault>
    requires { FitsTerm term.now }
    ensures exact { Answers plain encode_refusal result (unless (term_fault term.now) (Ok (written.term_value fields.now term.now))) }
    ensures again { IfOk result (λ _. TermAgain term.now) }
{
    let value = sought_value(alloc, term)?;
    let document = add(alloc, Document::new(alloc), term_name(fields, term), value)?;
    Ok(Value::Doc(document))
}

/// The terms of a filter.
pub(crate) fn filter_values(
    alloc: Global,
    fields: &[Field],
    terms: &[SentTerm],
) -> Result<Values, EncodeFault>
    requires { AllByRecursion FitsTerm terms.now }
    ensures exact { Answers (λ it. it) encode_refusal result (unless (terms_fault terms.now) (Ok (map (written.term_value fields.now) terms.now))) }
    ensures again { IfOk result (λ _. AllByRecursion TermAgain terms.now) }
{
    let mut items = Values::new(alloc);
    for term in terms {
        let value = term_value(alloc, fields, term)?;
        let Ok(()) = items.push(value) else {
            return Err(EncodeFault::NoMemory);
        };
    }
    Ok(items)
}
