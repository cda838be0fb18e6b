//! What holds of a row's value, as the contract of a function that does nothing.

ghost use Rattle.qe_ecoc.specs.Opening.{OpensWhatIsWritten};

/// `open_entry` undoes `make_cipher`.
pub fn opens_what_is_written()
    ensures { OpensWhatIsWritten }
{}
