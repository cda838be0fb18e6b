//! The labels of a run of a script.

ghost use Rattle.std.specs.Prelude.{◌≡◌, IfOk};
ghost use Rattle.qe_meant.specs.Held.{under_of};
ghost use Rattle.qe_runs.specs.Runs.{commands_of, IsRunOf};
ghost use Rattle.qe_strays.specs.Met.{met_of};
ghost use Rattle.qe_play.specs.Runs.{labels_in, WasRead};

use qe_base::NoMemory;
use qe_client::{Census, Client, LabelList, the_items_of_a_journal_are_of_encrypted_fields};
use qe_meant::a_script_is_meant;
use qe_protocol::JournalEntry;
use qe_runs::{a_run_is_encoded, runs_grow_by_lines};
use qe_script::Script;
use qe_strays::strays_are_the_words_of_a_journal;

/// All labels of a run with their identifiers, in order. The census has the words of its commands; the stray words of its
/// journal are put in.
pub(crate) fn labels_of_run(
    script: &Script,
    client: &Client,
    journal: &[JournalEntry],
    mut census: Census,
) -> Result<LabelList, NoMemory>
    requires read { WasRead script.now }
    requires client { client.now.sender.under ≡ under_of script.now }
    requires run { IsRunOf script.now journal.now }
    requires words { census ≡ met_of (under_of script.now) (commands_of script.now.lines) journal.now }
    ensures { IfOk result (λ labels. labels ≡ labels_in script.now journal.now) }
{
    a_script_is_meant(script);
    runs_grow_by_lines();
    a_run_is_encoded();
    the_items_of_a_journal_are_of_encrypted_fields();
    strays_are_the_words_of_a_journal();
    census.strays(client, journal)?;
    census.labels(client)
}
