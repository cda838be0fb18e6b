//! How a run of the program ends.

ghost use Rattle.std.specs.Prelude.{◌≡◌};
ghost use Rattle.qe_base.specs.Status.{code_of};

/// How a run of the program ended.
#[derive(Clone, Copy, Debug, PartialEq, Eq)]
pub enum Status {
    /// The work was done and its text written.
    Done,
    /// The source failed.
    ReadFault,
    /// The sink failed, and holds a prefix of the text that was due.
    WriteFault,
    /// Two labels of the run share an identifier.
    Clash,
    /// The bytes are no script.
    BadScript,
    /// There are more bytes than a script may have.
    ScriptTooLong,
    /// There was no memory.
    NoMemory,
    /// The words are of no known form.
    BadWords,
}

impl Status {
    /// The program's exit status.
    pub fn code(self) -> u8
        ensures { result ≡ code_of self }
    {
        match self {
            Status::Done => 0,
            Status::ReadFault => 1,
            Status::WriteFault => 2,
            Status::Clash => 3,
            Status::BadScript | Status::ScriptTooLong => 4,
            Status::NoMemory => 5,
            Status::BadWords => 6,
        }
    }
}
