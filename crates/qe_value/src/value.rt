//! Values, lists of values, and documents, which hold each other.

ghost use Rattle.std.specs.Prelude.{◌≡◌, ◌<◌, [], ◌∷◌, ◌++◌, false, length, map, slice_get, option_map, Some, IfOk, OnOk, OnErr, IsTrue, IsErrOf, ◌↔◌, true};
ghost use Rattle.std.specs.Str.{is_utf8};
ghost use Rattle.std.specs.Option.{option_copied};
ghost use Rattle.qe_value.specs.Measures.{distinct_in, distinct_in_fields, distinct_in_items};
ghost use Rattle.qe_value.specs.Names.{Distinct, is_named, value_named};
ghost use Rattle.qe_value.specs.Views.{plain, field_view, document_in, array_in};

use crate::fault::PushFault;
use qe_base::{Bytes, Duplicate, NoMemory, Text};
use sqlite_items::Items;
use std::alloc::Global;
use std::marker::Model;

/// A value as contracts see it: a tree without pointers, in which a document is the list of its fields. No code makes one.
#[derive(Drop)]
pub enum Plain {
    Double([u8; 8]),
    Str(Text),
    Doc(Items<(Text, Plain)>),
    Array(Items<Plain>),
    Binary { subtype: u8, bytes: Bytes },
    ObjectId([u8; 12]),
    Bool(bool),
    Date(i64),
    Null,
    Int32(i32),
    Timestamp(u64),
    Int64(i64),
    Decimal([u8; 16]),
}

/// A value of BSON 1.1, of the types that the project reads and writes.
#[cycle(value)]
#[derive(Drop)]
pub enum Value {
    /// The eight bytes of a double, carried unread.
    Double([u8; 8]),
    /// A string.
    Str(Text),
    /// A document.
    Doc(Document),
    /// An array.
    Array(Values),
    /// Bytes and their subtype.
    Binary { subtype: u8, bytes: Bytes },
    /// An object id.
    ObjectId([u8; 12]),
    /// A bool.
    Bool(bool),
    /// Milliseconds since 1970.
    Date(i64),
    /// Null.
    Null,
    /// A number of 32 bits.
    Int32(i32),
    /// A timestamp: seconds in the upper 32 bits, a counter in the lower.
    Timestamp(u64),
    /// A number of 64 bits.
    Int64(i64),
    /// The 16 bytes of a decimal, carried unread.
    Decimal([u8; 16]),
}

/// The items of an array.
#[cycle(value)]
#[derive(Drop)]
pub struct Values {
    pub(crate) items: Vec<Value>,
}

/// A list of named values. No name stands in it twice.
#[cycle(value)]
#[derive(Drop)]
pub struct Document {
    pub(crate) fields: Vec<(Text, Value)>,
}

impl Model for Values {
    ghost use Rattle.std.specs.Prelude.{List, map};
    ghost use Rattle.qe_value.specs.declared.value.Plain.{Plain};

    ghost Value = { List Plain };

    ghost use Rattle.qe_value.specs.contracts.value.Plain as e;
    ghost use Rattle.std.specs.Coded.{codes};

    ghost coded = { Prim.hlevel (codes, e.the_row.coded) };

    ghost use Rattle.qe_value.specs.Views.{plain, size_of_items};

    ghost view = { λ a. map plain a.items.items };

    ghost use Rattle.qe_value.specs.Kept.{KeepsItems};

    ghost invariant = { λ a. KeepsItems a.items.items };

    ghost size = { size_of_items };

    ghost use Rattle.std.proofs.Common.{arith};
    ghost use Rattle.qe_value.specs.Falls.{most_items};

    ghost size_decreases = { λ a h. omega (arith, most_items a.items.items) };
}

impl Model for Document {
    ghost use Rattle.std.specs.Prelude.{ℕ, List, map};
    ghost use Rattle.qe_value.specs.declared.value.Plain.{Plain};

    ghost Value = { List (List ℕ × Plain) };

    ghost use Rattle.qe_value.specs.contracts.value.Plain as e;
    ghost use Rattle.std.specs.Coded.{codes};

    ghost coded = { Prim.hlevel (codes, e.the_row.coded) };

    ghost use Rattle.qe_value.specs.Views.{field_view, size_of_fields};

    ghost view = { λ a. map field_view a.fields.items };

    ghost use Rattle.qe_value.specs.Kept.{KeepsFields};

    ghost invariant = { λ a. KeepsFields a.fields.items };

    ghost size = { size_of_fields };

    ghost use Rattle.std.proofs.Common.{arith};
    ghost use Rattle.qe_value.specs.Falls.{most_fields};

    ghost size_decreases = { λ a h. omega (arith, most_fields a.fields.items) };
}

impl Value {
    /// The document, where the value is one.
    pub fn as_document(&self) -> Option<&Document>
        ensures { option_copied result ≡ document_in self.now }
    {
        match self {
            Value::Doc(document) => Some(document),
            _ => None,
        }
    }

    /// The document, where the value is one.
    pub fn into_document(self) -> Option<Document>
        ensures { result ≡ document_in self }
    {
        match self {
            Value::Doc(document) => Some(document),
            _ => None,
        }
    }

    /// The items, where the value is an array.
    pub fn into_array(self) -> Option<Values>
        ensures { result ≡ array_in self }
    {
        match self {
            Value::Array(items) => Some(items),
            _ => None,
        }
    }

    /// The items, where the value is an array.
    pub fn as_array(&self) -> Option<&Values>
        ensures { option_copied result ≡ array_in self.now }
    {
        match self {
            Value::Array(items) => Some(items),
            _ => None,
        }
    }
}

impl Values {
    /// An array without items.
    pub fn new(alloc: Global) -> Values
        ensures { result ≡ [] }
    {
        Values {
            items: Vec::new(alloc),
        }
    }

    /// The number of items.
    pub fn len(&self) -> usize
        ensures { result ≡ length self.now }
    {
        self.items.len()
    }

    // Names are distinct in each document that stands in the array.
    fn keeps_names(&self)
        ensures { distinct_in_items self.now ≡ true }
    {
        let _items = &self.items;
    }

    /// Whether there is no item.
    pub fn is_empty(&self) -> bool
        ensures { IsTrue result ↔ (self.now ≡ []) }
    {
        self.items.is_empty()
    }

    /// The items.
    pub fn slice(&self) -> &[Value]
        ensures { map plain result.now ≡ self.now }
    {
        self.items.as_slice()
    }

    /// The items as a vector.
    pub fn into_vec(self) -> Vec<Value>
        ensures { map plain result.items ≡ self }
    {
        self.items
    }

    /// Adds an item at the end.
    pub fn push(&mut self, item: Value) -> Result<(), NoMemory>
        ensures ok { OnOk result (self.new ≡ self.old ++ plain item ∷ []) }
        ensures err { OnErr result (self.new ≡ self.old) }
    {
        keeps_names(&item);
        self.items.push(item)?;
        Ok(())
    }
}

impl Document {
    /// A document without fields.
    pub fn new(alloc: Global) -> Document
        ensures { result ≡ [] }
    {
        Document {
            fields: Vec::new(alloc),
        }
    }

    /// The document of these fields, whose names are distinct.
    pub fn from_fields(fields: Vec<(Text, Value)>) -> Document
        requires { Distinct fields.items }
        ensures { result ≡ map field_view fields.items }
    {
        for (_, value) in &fields {
            keeps_names(value);
        }
        Document { fields }
    }

    /// The number of fields. Their names are distinct, and so are those of each document that stands in this one.
    pub fn len(&self) -> usize
        ensures count { result ≡ length self.now }
        ensures distinct { Distinct self.now }
        ensures each_level { distinct_in_fields self.now ≡ true }
    {
        self.fields.len()
    }

    /// Whether there is no field.
    pub fn is_empty(&self) -> bool
        ensures { IsTrue result ↔ (self.now ≡ []) }
    {
        self.fields.is_empty()
    }

    /// The fields, in their order.
    pub fn slice(&self) -> &[(Text, Value)]
        ensures { map field_view result.now ≡ self.now }
    {
        self.fields.as_slice()
    }

    /// The name of a field, by its place from 0.
    pub fn name(&self, i: usize) -> &str
        requires { i < length self.now }
        ensures name { Some result.now ≡ option_map (λ f. f.0) (slice_get self.now i) }
        ensures utf8 { is_utf8 result.now ≡ true }
    {
        self.fields[i].0.as_str()
    }

    /// The value of a field, by its place from 0.
    pub fn value(&self, i: usize) -> &Value
        requires { i < length self.now }
        ensures { Some (plain result.now) ≡ option_map (λ f. f.1) (slice_get self.now i) }
    {
        &self.fields[i].1
    }

    /// The value of the field with a name, if there is one.
    pub fn get(&self, name: &str) -> Option<&Value>
        ensures { option_map plain (option_copied result) ≡ value_named name.now self.now }
    {
        for (other, value) in &self.fields {
            if name == other.as_str() {
                return Some(value);
            }
        }
        None
    }

    /// The fields as a vector.
    pub fn into_fields(self) -> Vec<(Text, Value)>
        ensures fields { map field_view result.items ≡ self }
        ensures distinct { Distinct self }
    {
        self.fields
    }

    /// Adds a field at the end. A refusal changes nothing and drops the name and the value.
    pub fn push(&mut self, name: Text, value: Value) -> Result<(), PushFault>
        ensures ok { OnOk result ((is_named name self.old ≡ false) × (self.new ≡ self.old ++ (name, plain value) ∷ [])) }
        ensures duplicate { IsErrOf result PushFault.DuplicateName → is_named name self.old ≡ true }
        ensures err { OnErr result (self.new ≡ self.old) }
    {
        if has_name(&self.fields, name.as_str()) {
            return Err(PushFault::DuplicateName);
        }
        keeps_names(&value);
        self.fields.push((name, value))?;
        Ok(())
    }
}

// A document and an array keep names distinct, so each value has them distinct.
fn keeps_names(value: &Value)
    ensures { distinct_in (plain value.now) ≡ true }
{
    match value {
        Value::Doc(document) => {
            let _count = document.len();
        }
        Value::Array(items) => items.keeps_names(),
        _ => {}
    }
}

/// Whether a field has the name.
pub fn has_name(fields: &[(Text, Value)], name: &str) -> bool
    ensures { result ≡ is_named name.now (map field_view fields.now) }
{
    for (other, _) in fields {
        if name == other.as_str() {
            return true;
        }
    }
    false
}

#[cycle(copy)]
fn copy_of(value: &Value) -> Result<Value, NoMemory>
    ensures { IfOk result (λ other. other ≡ value.now) }
{
    match value {
        Value::Double(bytes) => Ok(Value::Double(*bytes)),
        Value::Str(text) => Ok(Value::Str(text.copy()?)),
        Value::Doc(document) => Ok(Value::Doc(copy_of_document(document)?)),
        Value::Array(items) => Ok(Value::Array(copy_of_items(items)?)),
        Value::Binary { subtype, bytes } => Ok(Value::Binary {
            subtype: *subtype,
            bytes: bytes.copy()?,
        }),
        Value::ObjectId(bytes) => Ok(Value::ObjectId(*bytes)),
        Value::Bool(b) => Ok(Value::Bool(*b)),
        Value::Date(n) => Ok(Value::Date(*n)),
        Value::Null => Ok(Value::Null),
        Value::Int32(n) => Ok(Value::Int32(*n)),
        Value::Timestamp(n) => Ok(Value::Timestamp(*n)),
        Value::Int64(n) => Ok(Value::Int64(*n)),
        Value::Decimal(bytes) => Ok(Value::Decimal(*bytes)),
    }
}

#[cycle(copy)]
fn copy_of_items(values: &Values) -> Result<Values, NoMemory>
    ensures { IfOk result (λ other. other ≡ values.now) }
{
    let mut items = Vec::with_capacity(*values.items.allocator(), values.items.len())?;
    for item in &values.items {
        items.push(copy_of(item)?)?;
    }
    Ok(Values { items })
}

#[cycle(copy)]
fn copy_of_document(document: &Document) -> Result<Document, NoMemory>
    ensures { IfOk result (λ other. other ≡ document.now) }
{
    let mut fields = Vec::with_capacity(*document.fields.allocator(), document.fields.len())?;
    for (name, value) in &document.fields {
        fields.push((name.copy()?, copy_of(value)?))?;
    }
    Ok(Document { fields })
}

impl Duplicate for Value {
    fn copy(&self) -> Result<Self, NoMemory> {
        copy_of(self)
    }
}

impl Duplicate for Values {
    fn copy(&self) -> Result<Self, NoMemory> {
        copy_of_items(self)
    }
}

impl Duplicate for Document {
    fn copy(&self) -> Result<Self, NoMemory> {
        copy_of_document(self)
    }
}
