//! A schema read from a document. A field is judged behind the earlier ones.

ghost use Rattle.std.specs.Prelude.{◌≡◌, ◌<◌, ◌≤◌, ◌^◌, ◌++◌, ◌∷◌, [], ℕ, IfOk, IfSome, length, map, option_map, int_le};
ghost use Rattle.std.specs.Option.{option_copied};
ghost use Rattle.qe_base.specs.Answers.{Answers};
ghost use Rattle.qe_value.specs.Views.{plain};
ghost use Rattle.qe_field.specs.Faults.{schema_refusal};
ghost use Rattle.qe_field.specs.Reading as reading;
ghost use Rattle.qe_field.specs.Schema.{IsSchema};
ghost use Rattle.qe_field.specs.Shape.{shape_view, encrypted_view};

use crate::fault::SchemaFault;
use crate::field::{Field, FieldKind};
use crate::lookup::number_with;
use crate::names::is_path;
use crate::shape::{Encrypted, Rules, Shape, shape_of};
use crate::values::items_in;
use qe_base::{Listing, Text};
use qe_edges::{Domain, DomainFault, tests_tell_the_stored};
use qe_value::{Document, Value, Values};
use std::alloc::Global;
use uuid::Uuid;

/// The most fields of a schema.
const MOST_FIELDS: usize = 64;

/// The greatest contention.
const MOST_CONTENTION: i64 = 1_000;

/// The contention where none is given.
const DEFAULT_CONTENTION: i64 = 8;

/// The sparsity where none is given.
const DEFAULT_SPARSITY: u32 = 2;

// The type byte of an equality field.
fn equality_kind(name: &str) -> Option<u8>
    ensures { result ≡ reading.equality_kind name.now }
{
    if name == "int" {
        Some(0x10)
    } else if name == "long" {
        Some(0x12)
    } else if name == "string" {
        Some(0x02)
    } else if name == "bool" {
        Some(0x08)
    } else if name == "objectId" {
        Some(0x07)
    } else if name == "date" {
        Some(0x09)
    } else if name == "binData" {
        Some(0x05)
    } else {
        None
    }
}

// The type byte of a range field.
fn range_kind(name: &str) -> Option<u8>
    ensures { result ≡ reading.range_kind name.now }
{
    if name == "int" {
        Some(0x10)
    } else if name == "long" {
        Some(0x12)
    } else {
        None
    }
}

fn value_kind_of(rules: Option<&Rules>, name: &str) -> Option<u8>
    ensures { result ≡ reading.value_kind_of (option_copied rules.entry) name.now }
{
    match rules {
        None => equality_kind(name),
        Some(_) => range_kind(name),
    }
}

fn has_key(id: &[u8; 16], kind: &FieldKind) -> bool
    ensures { result ≡ reading.has_key id.now kind.now }
{
    match kind {
        FieldKind::Plain => false,
        FieldKind::Equality { key_id, .. } | FieldKind::Range { key_id, .. } => id == key_id,
    }
}

// The number of the field with a key id.
fn key_from(fields: &[Field], id: &[u8; 16]) -> Option<u32>
    requires { length fields.now ≤ 64 }
    ensures { result ≡ reading.key_from 0 id.now fields.now }
{
    for i in 0..fields.len() {
        if has_key(id, &fields[i].kind) {
            return Some(i as u32);
        }
    }
    None
}

fn id_of(text: &str) -> Option<[u8; 16]>
    ensures { result ≡ reading.key_id_of text.now }
{
    match Uuid::parse_str(text) {
        Ok(id) => Some(id.into_bytes()),
        Err(_) => None,
    }
}

// A number from 0 to 1,000.
fn limited(number: i64) -> Option<u64>
    ensures { result ≡ reading.limited number }
{
    if 0 <= number && number <= MOST_CONTENTION {
        Some(number as u64)
    } else {
        None
    }
}

// The contention and the greatest one.
fn contentions_of(form: &Encrypted<'_>) -> Option<(u64, u64)>
    ensures { result ≡ reading.contentions_of (encrypted_view form.now) }
{
    let given = form.contention.unwrap_or(DEFAULT_CONTENTION);
    let contention = limited(given)?;
    let greatest = limited(form.greatest.unwrap_or(given))?;
    if contention <= greatest {
        Some((contention, greatest))
    } else {
        None
    }
}

// A number that no u32 has counts as the greatest u32.
fn as_u32(number: i64) -> u32
    ensures { result ≡ reading.as_u32 number }
{
    if 0 <= number && number <= 4_294_967_295 {
        number as u32
    } else {
        u32::MAX
    }
}

fn as_u32_if(number: Option<i64>) -> Option<u32>
    ensures { result ≡ option_map reading.as_u32 number }
{
    match number {
        Some(number) => Some(as_u32(number)),
        None => None,
    }
}

fn domain_of(min: i64, max: i64, sparsity: u32, trim: Option<u32>) -> Result<Domain, DomainFault>
    ensures { result ≡ reading.domain_of min max sparsity trim }
{
    tests_tell_the_stored();
    Domain::new(min, max, sparsity, trim)
}

fn field_domain(number: u32, rules: &Rules) -> Result<Domain, SchemaFault>
    ensures { result ≡ reading.field_domain number rules.now }
{
    let sparsity = as_u32_if(rules.sparsity).unwrap_or(DEFAULT_SPARSITY);
    match domain_of(rules.min, rules.max, sparsity, as_u32_if(rules.trim)) {
        Ok(domain) => Ok(domain),
        Err(fault) => Err(SchemaFault::BadDomain {
            field: number,
            fault,
        }),
    }
}

fn with_rules(
    number: u32,
    value_kind: u8,
    key_id: [u8; 16],
    limits: (u64, u64),
    rules: Option<&Rules>,
) -> Result<FieldKind, SchemaFault>
    ensures { result ≡ reading.with_rules number value_kind key_id limits (option_copied rules.entry) }
{
    let (contention, greatest) = limits;
    let Some(rules) = rules else {
        return Ok(FieldKind::Equality {
            key_id,
            value_kind,
            contention,
            greatest,
        });
    };
    let domain = field_domain(number, rules)?;
    Ok(FieldKind::Range {
        key_id,
        value_kind,
        contention,
        greatest,
        domain,
    })
}

// How an encrypted field is kept.
fn encrypted_kind(
    earlier: &[Field],
    number: u32,
    form: &Encrypted<'_>,
) -> Result<FieldKind, SchemaFault>
    requires { length earlier.now ≤ 64 }
    ensures { result ≡ reading.encrypted_kind earlier.now number (encrypted_view form.now) }
{
    let Some(value_kind) = value_kind_of(form.rules.as_ref(), form.value_type) else {
        return Err(SchemaFault::BadType(number));
    };
    let Some(id) = id_of(form.key_id) else {
        return Err(SchemaFault::BadKeyId(number));
    };
    if let Some(first) = key_from(earlier, &id) {
        return Err(SchemaFault::DuplicateKeyId {
            first,
            second: number,
        });
    }
    let Some(limits) = contentions_of(form) else {
        return Err(SchemaFault::BadContention(number));
    };
    with_rules(number, value_kind, id, limits, form.rules.as_ref())
}

fn field_kind(
    earlier: &[Field],
    number: u32,
    form: Option<&Encrypted<'_>>,
) -> Result<FieldKind, SchemaFault>
    requires { length earlier.now ≤ 64 }
    ensures { result ≡ reading.field_kind earlier.now number (option_map encrypted_view (option_copied form.entry)) }
{
    match form {
        None => Ok(FieldKind::Plain),
        Some(form) => encrypted_kind(earlier, number, form),
    }
}

fn named_field(
    alloc: Global,
    earlier: &[Field],
    number: u32,
    form: &Shape<'_>,
) -> Result<Field, SchemaFault>
    requires { length earlier.now ≤ 64 }
    ensures { Answers (λ it. it) schema_refusal result (reading.named_field earlier.now number (shape_view form.now)) }
{
    if !is_path(form.path) {
        return Err(SchemaFault::BadPath(number));
    }
    if let Some(first) = number_with(earlier, form.path) {
        return Err(SchemaFault::DuplicateField {
            first,
            second: number,
        });
    }
    let kind = field_kind(earlier, number, form.encrypted.as_ref())?;
    let path = Text::of(alloc, form.path)?;
    Ok(Field { path, kind })
}

fn field_of(
    alloc: Global,
    earlier: &[Field],
    number: u32,
    value: &Value,
) -> Result<Field, SchemaFault>
    requires { length earlier.now ≤ 64 }
    ensures { Answers (λ it. it) schema_refusal result (reading.field_of earlier.now number (plain value.now)) }
{
    let Some(form) = shape_of(value) else {
        return Err(SchemaFault::BadForm(number));
    };
    named_field(alloc, earlier, number, &form)
}

fn fields_of(alloc: Global, values: &[Value]) -> Result<Listing<Field>, SchemaFault>
    requires { length values.now ≤ 64 }
    ensures exact { Answers (λ it. it) schema_refusal result (reading.fields_from 0 [] (map plain values.now)) }
    ensures count { IfOk result (λ fields. length fields ≡ length values.now) }
{
    let mut fields = Listing::new(alloc);
    for value in values {
        let number = fields.len() as u32;
        let field = field_of(alloc, fields.slice(), number, value)?;
        fields.push(field)?;
    }
    Ok(fields)
}

// The values under the one name `fields`.
fn values_in(document: &Document) -> Option<&Values>
    ensures { option_copied result ≡ reading.values_in document.now }
{
    if document.len() != 1 {
        return None;
    }
    items_in(document.get("fields")?)
}

fn listed_fields(alloc: Global, document: &Document) -> Result<Listing<Field>, SchemaFault>
    ensures { Answers (λ it. it) schema_refusal result (reading.schema_of document.now) }
{
    let Some(values) = values_in(document) else {
        return Err(SchemaFault::NotFields);
    };
    if values.len() > MOST_FIELDS {
        return Err(SchemaFault::TooManyFields(values.len() as u64));
    }
    fields_of(alloc, values.slice())
}

/// The fields of a schema: at most 64, with distinct paths and key ids.
pub fn read_fields(alloc: Global, document: &Document) -> Result<Listing<Field>, SchemaFault>
    ensures exact { Answers (λ it. it) schema_refusal result (reading.schema_of document.now) }
    ensures schema { IfOk result IsSchema }
{
    listed_fields(alloc, document)
}
