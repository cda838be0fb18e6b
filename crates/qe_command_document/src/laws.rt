//! What holds of command documents, as the contract of a function that does nothing.

ghost use Rattle.std.specs.Prelude.{List};
ghost use Rattle.qe_field.specs.declared.field.Field.{Field};
ghost use Rattle.qe_command_document.specs.CommandLaws.{CommandLaws};

/// Bytes are read as a command exactly where they are its document, and are the document of one command at most; cut
/// short they are refused as such.
pub fn command_documents_are_read()
    ensures { (fields : List Field) → CommandLaws fields }
{}
