//! How many bytes the documents of commands have.

ghost use Rattle.std.specs.Prelude.{◌≡◌, ◌+◌, IfOk, length, map};
ghost use Rattle.qe_value.specs.Measures.{fields_length};
ghost use Rattle.qe_field.specs.Lookup as lookup;
ghost use Rattle.qe_fits.specs.Counts as counts;
ghost use Rattle.qe_fits.specs.Sizes as sizes;

use crate::cells::{cells_length, inserted_length};
use crate::lengths::{FRAME, count_of, element_length};
use crate::terms::filter_length;
use qe_base::{JobKind, NoMemory};
use qe_field::{Field, path_of};
use qe_plain::{Pair, PlainCommand};
use std::alloc::Global;

// The documents of commands beside the values that are counted: `op`, the other names, and values of one length.
const INSERT: u32 = 25;

const FIND: u32 = 32;

const UPDATE: u32 = 38;

const DELETE: u32 = 28;

const BEGIN: u32 = 50;

const STEP: u32 = 42;

const END: u32 = 30;

const ABANDON: u32 = 34;

const RAISE: u32 = 51;

// A binary of 32 bytes.
const TOKEN: u32 = 37;

// The element of a token.
fn token_length(fields: &[Field], pair: &Pair) -> u32
    ensures { result ≡ counts.capped (length (lookup.path_of fields.now pair.now.field) + 2 + 37) }
{
    element_length(path_of(fields, pair.field), TOKEN)
}

// The elements of the tokens.
fn tokens_length(fields: &[Field], pairs: &[Pair]) -> u32
    ensures { result ≡ counts.capped (fields_length (map (sizes.pair_element fields.now) pairs.now)) }
{
    let mut length: u32 = 0;
    for pair in pairs {
        length = length.saturating_add(token_length(fields, pair));
    }
    length
}

/// The document of a command.
#[tactic(auto, unfolding(crate::specs::Sizes::counted_length))]
pub(crate) fn counted_length(
    alloc: Global,
    fields: &[Field],
    command: &PlainCommand,
) -> Result<u32, NoMemory>
    ensures { IfOk result (λ count. count ≡ counts.capped (sizes.counted_length fields.now command.now)) }
{
    match command {
        PlainCommand::Insert { doc } => {
            Ok(inserted_length(alloc, fields, doc)?.saturating_add(INSERT))
        }
        PlainCommand::Find { filter, .. } => {
            Ok(filter_length(alloc, fields, filter.slice())?.saturating_add(FIND))
        }
        PlainCommand::Update { filter, set } => {
            let filter = filter_length(alloc, fields, filter.slice())?;
            let set = cells_length(alloc, fields, set.slice())?;
            Ok(filter.saturating_add(set).saturating_add(UPDATE))
        }
        PlainCommand::Delete { filter } => {
            Ok(filter_length(alloc, fields, filter.slice())?.saturating_add(DELETE))
        }
        // both kinds' names have 7 letters
        PlainCommand::Begin { tokens, .. } => {
            Ok(tokens_length(fields, tokens.slice()).saturating_add(BEGIN))
        }
        PlainCommand::Step { .. } => Ok(STEP),
        PlainCommand::End { .. } => Ok(END),
        PlainCommand::Abandon { .. } => Ok(ABANDON),
        PlainCommand::Raise { field, .. } => {
            Ok(count_of(path_of(fields, *field).len()).saturating_add(RAISE))
        }
    }
}
