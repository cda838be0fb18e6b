//! Laws of journals of encoded commands, each as the contract of a function that does nothing.

ghost use Rattle.qe_labels.specs.Under.{Under};
ghost use Rattle.qe_encodes.specs.Fields.{IsUnder};
ghost use Rattle.qe_laws.specs.Entries.{AtEachEntry, FrontsAreJournals, IsOnlyEntry, MismatchTells, OwnTokensServe, SearchesCount};
ghost use Rattle.qe_laws.specs.Journals.{AnswersPlainly, EntriesAreOnly, KeepsEntries};

use qe_edges::{lists_are_the_sets, meet_once, texts_differ};
use qe_plain::a_step_keeps_a_collection;

/// Whatever commands were sent, in any order, with begins, steps, ends, abandons and raises among them: where no two
/// distinct labels share an identifier, the state stands for the plain replay of the commands without maintenance and without
/// those that a contention refused, each insert, find, update and delete that none refused has the plain collection's reply,
/// and no caller's number of a field is above the field's current contention.
pub fn maintenance_beside_writers()
    ensures { AnswersPlainly }
{
    meet_once();
    lists_are_the_sets();
    texts_differ();
    a_step_keeps_a_collection();
}

/// In a state that stands for a plain collection, where no two distinct labels share an identifier, an encoded entry that is
/// allowed is the only one of its caller, command and nonces: each search has one true count.
pub fn an_entry_is_the_only_one()
    ensures { EntriesAreOnly }
{}

/// So is each entry of a journal of encoded commands in which no labels clash, where it stands: two entries that may come next,
/// of the same caller, command and nonces, are one.
pub fn each_entry_is_the_only_one()
    ensures { AtEachEntry IsOnlyEntry }
{
    meet_once();
    lists_are_the_sets();
    texts_differ();
    a_step_keeps_a_collection();
}

/// Each encoded entry that is allowed, of whatever kind, keeps the relation, as long as no labels clash, and its reply is the
/// one that is due.
pub fn each_entry_keeps_the_relation()
    ensures { (u : Under) → IsUnder u → KeepsEntries u }
{
    meet_once();
    lists_are_the_sets();
    texts_differ();
    a_step_keeps_a_collection();
}

/// Each front of a journal of encoded commands is one, and if the journal is without a clash, so is the front.
pub fn a_front_is_a_journal()
    ensures { FrontsAreJournals }
{}

/// In a journal of encoded commands in which no labels clash, each search of each entry has one true count, whose number is how
/// often the entries before it indexed the search's word; for a stray word it is 0.
pub fn each_search_counts_its_word()
    ensures { AtEachEntry SearchesCount }
{
    meet_once();
    lists_are_the_sets();
    texts_differ();
    a_step_keeps_a_collection();
}

/// In a journal of encoded commands in which no labels clash, an entry answers a mismatch exactly where it opened a row with
/// another token than its field's; that row is the last that it opened.
pub fn each_mismatch_tells_of_another_token()
    ensures { AtEachEntry MismatchTells }
{
    meet_once();
    lists_are_the_sets();
    texts_differ();
    a_step_keeps_a_collection();
}

/// In a journal of encoded commands in which no labels clash, and whose begins send each field's own token, no step answers a
/// mismatch.
pub fn own_tokens_meet_no_mismatch()
    ensures { OwnTokensServe }
{
    meet_once();
    lists_are_the_sets();
    texts_differ();
    a_step_keeps_a_collection();
}
