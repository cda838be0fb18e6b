//! Texts of UTF-8.

ghost use Rattle.std.specs.Prelude.{◌≡◌, true, IfOk};
ghost use Rattle.std.specs.Str.{is_utf8};

use crate::{Duplicate, NoMemory};
use std::alloc::Global;
use std::marker::Model;

/// A text of UTF-8. Contracts see its bytes.
#[derive(Drop)]
pub struct Text {
    alloc: Global,
    text: String,
}

impl Model for Text {
    ghost use Rattle.std.specs.Prelude.{ℕ, List, string_bytes};
    ghost use Rattle.std.specs.Coded.{coded_list, coded_ℕ};

    ghost Value = { List ℕ };

    ghost coded = { coded_list coded_ℕ };

    ghost view = { λ t. string_bytes t.text };
}

impl Text {
    /// A copy of the text.
    pub fn of(alloc: Global, text: &str) -> Result<Text, NoMemory>
        ensures { IfOk result (λ made. made ≡ text.now) }
    {
        let text = String::from_str(alloc, text)?;
        Ok(Text { alloc, text })
    }

    /// The text.
    pub fn as_str(&self) -> &str
        ensures value { result.now ≡ self.now }
        ensures utf8 { is_utf8 self.now ≡ true }
    {
        self.text.as_str()
    }
}

impl Duplicate for Text {
    fn copy(&self) -> Result<Self, NoMemory> {
        Text::of(self.alloc, self.text.as_str())
    }
}
