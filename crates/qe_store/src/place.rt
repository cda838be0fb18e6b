//! Where a document stands among documents in rising number.

ghost use Rattle.std.specs.Prelude.{◌≡◌};
ghost use Rattle.qe_store.specs.Parts.{Rising, IsPlace};

use crate::stored::Stored;

/// The place of the document with a number, if there is one, by halving.
pub(crate) fn place(documents: &[(u64, Stored)], number: u64) -> Option<usize>
    requires { Rising documents.now }
    ensures { IsPlace documents.now number result }
{
    documents
        .binary_search_by_key(&number, |document| document.0)
        .ok()
}
