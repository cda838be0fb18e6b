//! What holds of a run without a clash.

ghost use Rattle.std.specs.Prelude.{◌≡◌};
ghost use Rattle.qe_encodes.specs.Kept.{outcomes_of, replies_due};
ghost use Rattle.qe_runs.specs.Runs.{commands_of, IsRunOf};
ghost use Rattle.qe_play.specs.Due.{HasOneVerdict, IsOnlyRun};
ghost use Rattle.qe_play.specs.Runs.{AreAnswered, ArePrinted, IsClear, WasRead};

use qe_meant::a_script_is_meant;
use qe_opening::a_reply_is_read_where_it_means_something;
use qe_plain::PlainReply;
use qe_protocol::JournalEntry;
use qe_runs::{a_run_is_answered_plainly, a_run_without_a_clash_is_the_only_one};
use qe_script::{Script, what_a_script_holds_is_printed};
use qe_texts::what_is_unprintable_in_a_reply;

/// It is the script's only one.
pub(crate) fn a_clear_run_is_the_only_one(script: &Script, journal: &[JournalEntry])
    requires read { WasRead script.now }
    requires run { IsRunOf script.now journal.now }
    requires clear { IsClear script.now journal.now }
    ensures { IsOnlyRun script.now journal.now }
{
    a_script_is_meant(script);
    a_run_without_a_clash_is_the_only_one();
}

/// Its replies are those that are due, and each of them has a line.
pub(crate) fn a_clear_run_is_answered(
    script: &Script,
    journal: &[JournalEntry],
    replies: &[PlainReply],
)
    requires read { WasRead script.now }
    requires run { IsRunOf script.now journal.now }
    requires clear { IsClear script.now journal.now }
    requires answers { AreAnswered script.now journal.now replies.now }
    ensures due { replies.now ≡ replies_due (commands_of script.now.lines) (outcomes_of journal.now) }
    ensures printed { ArePrinted script.now.schema replies.now }
{
    a_script_is_meant(script);
    a_run_is_answered_plainly();
    a_reply_is_read_where_it_means_something();
    what_is_unprintable_in_a_reply();
    what_a_script_holds_is_printed();
}
