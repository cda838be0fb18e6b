//! Schemas: fields with distinct paths and key ids.

ghost use Rattle.std.specs.Prelude.{◌≡◌, ◌<◌, ◌≤◌, ◌↔◌, [], Some, IsTrue, IfOk, IfSome, length, slice_get};
ghost use Rattle.qe_base.specs.Answers.{Answers};
ghost use Rattle.qe_filter.specs.Faults.{plain_refusal};
ghost use Rattle.qe_field.specs.Faults.{schema_refusal};
ghost use Rattle.qe_field.specs.Lookup.{number_with as number_under};
ghost use Rattle.qe_field.specs.Reading.{schema_of};
ghost use Rattle.qe_field.specs.Schema.{IsSchema};
ghost use Rattle.qe_fits.specs.Fits.{fits as fits_under, misfit as misfit_under};
ghost use Rattle.qe_resolve.specs.Resolve.{resolved as resolved_under};
ghost use Rattle.qe_schema.specs.Resolved.{IsResolved};

use qe_base::{Duplicate, Listing, NoMemory};
use qe_field::{Field, SchemaFault, number_with, read_fields};
use qe_filter::PlainFault;
use qe_fits::{Part, fits, misfit};
use qe_plain::{PlainCommand, RawCommand};
use qe_resolve::resolved;
use qe_value::Document;
use std::alloc::Global;
use std::marker::Model;

/// The fields that documents may have. Contracts see their list.
#[derive(Drop)]
pub struct Schema {
    fields: Listing<Field>,
}

impl Model for Schema {
    ghost use Rattle.std.specs.Prelude.{List};
    ghost use Rattle.qe_field.specs.declared.field.Field.{Field};

    ghost Value = { List Field };

    ghost view = { λ s. s.fields };

    ghost use Rattle.qe_field.specs.Schema.{IsSchema};

    ghost invariant = { λ s. IsSchema s.fields };
}

impl Schema {
    /// The schema of a document whose one name `fields` has an array of field objects.
    pub fn read(alloc: Global, document: &Document) -> Result<Schema, SchemaFault>
        ensures exact { Answers (λ it. it) schema_refusal result (schema_of document.now) }
    {
        let fields = read_fields(alloc, document)?;
        Ok(Schema { fields })
    }

    /// The number of fields.
    pub fn len(&self) -> usize
        ensures count { result ≡ length self.now }
        ensures few { result ≤ 64 }
    {
        self.fields.len()
    }

    /// Whether there is no field.
    pub fn is_empty(&self) -> bool
        ensures { IsTrue result ↔ (self.now ≡ []) }
    {
        self.fields.is_empty()
    }

    /// The field of a number.
    pub fn field(&self, i: usize) -> &Field
        requires { i < length self.now }
        ensures { Some result.now ≡ slice_get self.now i }
    {
        &self.fields.slice()[i]
    }

    /// The fields, in order.
    pub fn fields(&self) -> &[Field]
        ensures all { result.now ≡ self.now }
        ensures few { length result.now ≤ 64 }
        ensures schema { IsSchema self.now }
    {
        self.fields.slice()
    }

    /// The number of the field with a path.
    pub fn find(&self, path: &str) -> Option<u32>
        ensures exact { result ≡ number_under self.now path.now }
        ensures within { IfSome result (λ i. i < length self.now) }
    {
        number_with(self.fields(), path)
    }

    /// The command under this schema, or its first fault.
    pub fn resolve(&self, alloc: Global, raw: &RawCommand) -> Result<PlainCommand, PlainFault>
        ensures exact { Answers (λ it. it) plain_refusal result (resolved_under self.now raw.now) }
        ensures allowed { IfOk result (IsResolved self.now) }
    {
        resolved(alloc, self.fields(), raw)
    }

    /// Whether the document of a command under this schema can be written: it has at most 16,777,216 bytes, counted over
    /// the command, and 100 levels, and no name with a byte 0.
    pub fn fits(&self, alloc: Global, plain: &PlainCommand) -> Result<bool, NoMemory>
        ensures exact { IfOk result (λ fit. fit ≡ fits_under self.now plain.now) }
    {
        fits(alloc, self.fields(), plain)
    }

    /// The value of the command's line that is at fault where its document can't be written: one with a bad name or too
    /// many levels, or else the one that is blamed for the length.
    pub fn misfit(&self, alloc: Global, plain: &PlainCommand) -> Result<Option<Part>, NoMemory>
        ensures exact { IfOk result (λ part. part ≡ misfit_under self.now plain.now) }
    {
        misfit(alloc, self.fields(), plain)
    }
}

impl Duplicate for Schema {
    fn copy(&self) -> Result<Self, NoMemory> {
        let fields = self.fields.copy()?;
        Ok(Schema { fields })
    }
}
