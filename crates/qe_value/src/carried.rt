//! A value that contracts see as its tree.

ghost use Rattle.std.specs.Prelude.{◌≡◌, IfOk};
ghost use Rattle.qe_value.specs.Views.{plain};

use crate::value::Value;
use qe_base::{Duplicate, NoMemory};
use std::marker::Model;

/// A value that is carried unread, inside a payload, a document, a term or an answer. Contracts see its tree.
#[derive(Drop)]
pub struct Carried {
    value: Value,
}

impl Model for Carried {
    ghost use Rattle.qe_value.specs.declared.value.Plain.{Plain};

    ghost Value = { Plain };

    ghost use Rattle.qe_value.specs.contracts.value.Plain as e;
    ghost use Rattle.std.specs.Coded.{codes};

    ghost coded = { Prim.hlevel (codes, e.the_row.coded) };

    ghost use Rattle.qe_value.specs.Views.{plain};

    ghost view = { λ c. plain c.value };
}

impl Carried {
    /// The value, carried.
    pub fn new(value: Value) -> Carried
        ensures { result ≡ plain value }
    {
        Carried { value }
    }

    /// A copy of the value, carried.
    pub fn of(value: &Value) -> Result<Carried, NoMemory>
        ensures { IfOk result (λ it. it ≡ plain value.now) }
    {
        let value = value.copy()?;
        Ok(Carried { value })
    }

    /// The value.
    pub fn value(&self) -> &Value
        ensures { plain result.now ≡ self.now }
    {
        &self.value
    }

    /// The value alone.
    pub fn into_value(self) -> Value
        ensures { plain result ≡ self }
    {
        self.value
    }
}

impl Duplicate for Carried {
    fn copy(&self) -> Result<Self, NoMemory> {
        Carried::of(&self.value)
    }
}
