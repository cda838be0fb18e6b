//! The form of a field object: which names it has, and of which types their values are.

ghost use Rattle.std.specs.Prelude.{◌≡◌, option_map};
ghost use Rattle.std.specs.List.{list_all};
ghost use Rattle.std.specs.Option.{option_copied};
ghost use Rattle.qe_value.specs.Views.{plain, field_view};
ghost use Rattle.qe_field.specs.Shape as shape;

use crate::values::{elements_in, number_in, text_in};
use qe_base::Text;
use qe_value::{Document, Value};

/// The rules of a range field, as they are given.
#[derive(Clone, Copy)]
pub(crate) struct Rules {
    pub min: i64,
    pub max: i64,
    pub sparsity: Option<i64>,
    pub trim: Option<i64>,
}

/// What an encrypted field's object holds besides its path; only a range field has rules.
#[derive(Clone, Copy)]
pub(crate) struct Encrypted<'a> {
    pub value_type: &'a str,
    pub key_id: &'a str,
    pub contention: Option<i64>,
    pub greatest: Option<i64>,
    pub rules: Option<Rules>,
}

/// What a field object holds; a plain field's has a path alone.
#[derive(Clone, Copy)]
pub(crate) struct Shape<'a> {
    pub path: &'a str,
    pub encrypted: Option<Encrypted<'a>>,
}

fn text_named<'a>(elements: &'a Document, name: &str) -> Option<&'a str>
    ensures { option_map (λ text. text.now) result ≡ shape.text_named name.now elements.now }
{
    text_in(elements.get(name)?)
}

fn number_named(elements: &Document, name: &str) -> Option<i64>
    ensures { result ≡ shape.number_named name.now elements.now }
{
    number_in(elements.get(name)?)
}

// A number that may be missing.
fn number_if(value: Option<&Value>) -> Option<Option<i64>>
    ensures { result ≡ shape.number_if (option_map plain (option_copied value.entry)) }
{
    match value {
        None => Some(None),
        Some(value) => {
            let number = number_in(value)?;
            Some(Some(number))
        }
    }
}

fn number_if_named(elements: &Document, name: &str) -> Option<Option<i64>>
    ensures { result ≡ shape.number_if_named name.now elements.now }
{
    number_if(elements.get(name))
}

fn is_int32(number: i64) -> bool
    ensures { result ≡ shape.is_int32 number }
{
    -2_147_483_648 <= number && number <= 2_147_483_647
}

// The ends of an int field's domain are int32s.
fn ends_fit(value_type: &str, low: i64, high: i64) -> bool
    ensures { result ≡ shape.ends_fit value_type.now low high }
{
    value_type != "int" || (is_int32(low) && is_int32(high))
}

#[tactic(auto, unfolding(crate::specs::Shape::rules_in))]
fn rules_in(value_type: &str, elements: &Document) -> Option<Rules>
    ensures { result ≡ shape.rules_in value_type.now elements.now }
{
    let min = number_named(elements, "min")?;
    let max = number_named(elements, "max")?;
    let sparsity = number_if_named(elements, "sparsity")?;
    let trim = number_if_named(elements, "trimFactor")?;
    if !ends_fit(value_type, min, max) {
        return None;
    }
    Some(Rules {
        min,
        max,
        sparsity,
        trim,
    })
}

// The rules that the query asks for: a range has them, an equality has none.
fn rules_if_range(query: &str, value_type: &str, elements: &Document) -> Option<Option<Rules>>
    ensures { result ≡ shape.rules_if_range query.now value_type.now elements.now }
{
    if query == "range" {
        let rules = rules_in(value_type, elements)?;
        Some(Some(rules))
    } else if query == "equality" {
        Some(None)
    } else {
        None
    }
}

// The names of an encrypted field's object.
fn is_encrypted_name(name: &str) -> bool
    ensures { result ≡ shape.is_encrypted_name name.now }
{
    name == "path"
        || name == "bsonType"
        || name == "keyId"
        || name == "query"
        || name == "contention"
        || name == "greatest"
}

// .. and a range field's beside them.
fn is_rule_name(name: &str) -> bool
    ensures { result ≡ shape.is_rule_name name.now }
{
    name == "min" || name == "max" || name == "sparsity" || name == "trimFactor"
}

fn is_known(ranged: bool, element: &(Text, Value)) -> bool
    ensures { result ≡ shape.is_known ranged (field_view element.now) }
{
    let name = element.0.as_str();
    is_encrypted_name(name) || (ranged && is_rule_name(name))
}

fn are_known(ranged: bool, elements: &Document) -> bool
    ensures { result ≡ list_all (shape.is_known ranged) elements.now }
{
    for element in elements.slice() {
        if !is_known(ranged, element) {
            return false;
        }
    }
    true
}

#[tactic(auto, unfolding(crate::specs::Shape::encrypted_in))]
fn encrypted_in(elements: &Document) -> Option<Encrypted<'_>>
    ensures { option_map shape.encrypted_view result ≡ shape.encrypted_in elements.now }
{
    let value_type = text_named(elements, "bsonType")?;
    let key_id = text_named(elements, "keyId")?;
    let query = text_named(elements, "query")?;
    let contention = number_if_named(elements, "contention")?;
    let greatest = number_if_named(elements, "greatest")?;
    let rules = rules_if_range(query, value_type, elements)?;
    Some(Encrypted {
        value_type,
        key_id,
        contention,
        greatest,
        rules,
    })
}

#[tactic(auto, unfolding(crate::specs::Shape::shape_in))]
fn shape_in(elements: &Document) -> Option<Shape<'_>>
    ensures { option_map shape.shape_view result ≡ shape.shape_in elements.now }
{
    let path = text_named(elements, "path")?;
    if elements.len() == 1 {
        return Some(Shape {
            path,
            encrypted: None,
        });
    }
    let form = encrypted_in(elements)?;
    if !are_known(form.rules.is_some(), elements) {
        return None;
    }
    Some(Shape {
        path,
        encrypted: Some(form),
    })
}

/// The form of a field object, if the value has it.
pub(crate) fn shape_of(value: &Value) -> Option<Shape<'_>>
    ensures { option_map shape.shape_view result ≡ shape.shape_of (plain value.now) }
{
    shape_in(elements_in(value)?)
}
