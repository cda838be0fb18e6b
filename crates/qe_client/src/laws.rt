//! Laws of a run's words, each as the contract of a function that does nothing.

ghost use Rattle.qe_client.specs.Laws.{ItemsAreEncrypted};

/// The items of a journal of encoded commands are of encrypted fields: so its labels can be told.
pub fn the_items_of_a_journal_are_of_encrypted_fields()
    ensures { ItemsAreEncrypted }
{}
