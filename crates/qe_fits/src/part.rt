//! The values of a command's line that can be at fault.

ghost use Rattle.std.specs.Prelude.{◌≡◌};
ghost use Rattle.qe_fits.specs.Fits.{name_of};

/// A value of a command's line.
#[derive(Clone, Copy, Debug, PartialEq, Eq)]
pub enum Part {
    /// The document to insert.
    Doc,
    /// The filter.
    Filter,
    /// The cells to set.
    Set,
}

impl Part {
    /// Its name in the line.
    pub fn name(&self) -> &'static str
        ensures { result.now ≡ name_of self.now }
    {
        match self {
            Part::Doc => "doc",
            Part::Filter => "filter",
            Part::Set => "set",
        }
    }
}
