//! Laws of runs, each as the contract of a function that does nothing.

ghost use Rattle.qe_encodes.specs.Fields.{IsUnder};
ghost use Rattle.qe_runs.specs.Laws.{CallersCount, OneRun, RunsAreAnsweredPlainly, RunsEncode, RunsGrow};
ghost use Rattle.qe_runs.specs.Runs.{Setting};

use qe_edges::{lists_are_the_sets, meet_once, texts_differ};
use qe_plain::a_step_keeps_a_collection;

/// A run grows by an entry that is allowed and that the next line's caller sent, as it stands then; each run is made so,
/// and has as many entries as lines.
pub fn runs_grow_by_lines()
    ensures { (setting : Setting) → RunsGrow setting }
{}

/// The commands of a run are encoded.
pub fn a_run_is_encoded()
    ensures { (setting : Setting) → RunsEncode setting }
{}

/// A caller's next command has the number of its earlier ones, in 64 bits.
pub fn a_command_has_the_number_of_the_earlier_ones()
    ensures { (setting : Setting) → CallersCount setting }
{}

/// A run without a clash is the only one of its lines: since each caller draws its own nonces, and each search then has one
/// count that is true, nothing of a run is left open.
pub fn a_run_without_a_clash_is_the_only_one()
    ensures { (setting : Setting) → IsUnder setting.under → OneRun setting }
{
    meet_once();
    lists_are_the_sets();
    texts_differ();
    a_step_keeps_a_collection();
}

/// A run without a clash is answered plainly: its replies, but for maintenance and for what a contention refused, are those of
/// the plain replay of the other commands, and the state at its end stands for what that leaves.
pub fn a_run_is_answered_plainly()
    ensures { (setting : Setting) → IsUnder setting.under → RunsAreAnsweredPlainly setting }
{
    meet_once();
    lists_are_the_sets();
    texts_differ();
    a_step_keeps_a_collection();
}
