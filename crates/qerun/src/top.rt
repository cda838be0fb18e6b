//! A call of the program: what is due is made ready, and then written.

ghost use Rattle.std.specs.Prelude.{◌≤◌, map, string_bytes};
ghost use Rattle.qe_due.specs.Ending.{LeavesUnread};
ghost use Rattle.qerun.specs.Top.{Call, IsOutcome, Completes};

use qe_base::{Sink, Source, Status, put_all};
use qe_due::{Stop, due, what_is_due_has_one_status};
use std::alloc::Global;

/// Does what the words ask for: runs the script that the source gives and writes its replies to the sink, writes the lines
/// that show the blobs that it gives, or writes a script, reading nothing.
///
/// The source is read to its end before anything is run, and all is run and checked before anything is written.
pub fn replay<S: Source, K: Sink>(
    alloc: Global,
    words: &[String],
    source: &mut S,
    sink: &mut K,
) -> Status
    // Each status has its cause and its text.
    ensures outcome { IsOutcome (record {
      words = map string_bytes words.now;
      left = S.left source.old;
      left_after = S.left source.new;
      reads = S.faults source.old;
      reads_after = S.faults source.new;
      holds = K.holds sink.old;
      holds_after = K.holds sink.new;
      writes = K.faults sink.old;
      writes_after = K.faults sink.new;
    }) result }

    // It gives up for no other cause, and no other status is due.
    ensures complete { Completes (record {
      words = map string_bytes words.now;
      left = S.left source.old;
      left_after = S.left source.new;
      reads = S.faults source.old;
      reads_after = S.faults source.new;
      holds = K.holds sink.old;
      holds_after = K.holds sink.new;
      writes = K.faults sink.old;
      writes_after = K.faults sink.new;
    }) result }

    // Words that ask for nothing, or for a script to be made, leave the source as it was.
    ensures unread { LeavesUnread (map string_bytes words.now) source.old source.new }

    ensures reads { S.faults source.old ≤ S.faults source.new }
    ensures writes { K.faults sink.old ≤ K.faults sink.new }
{
    what_is_due_has_one_status();
    let status = outcome(alloc, words, source, sink);
    status
}

fn outcome<S: Source, K: Sink>(
    alloc: Global,
    words: &[String],
    source: &mut S,
    sink: &mut K,
) -> Status
    ensures outcome { IsOutcome (record {
      words = map string_bytes words.now;
      left = S.left source.old;
      left_after = S.left source.new;
      reads = S.faults source.old;
      reads_after = S.faults source.new;
      holds = K.holds sink.old;
      holds_after = K.holds sink.new;
      writes = K.faults sink.old;
      writes_after = K.faults sink.new;
    }) result }
    ensures unread { LeavesUnread (map string_bytes words.now) source.old source.new }
    ensures reads { S.faults source.old ≤ S.faults source.new }
    ensures writes { K.faults sink.old ≤ K.faults sink.new }
{
    match due(alloc, words, source) {
        Ok(ending) => match put_all(sink, ending.text.slice()) {
            Ok(()) => ending.status,
            Err(_) => Status::WriteFault,
        },
        Err(Stop::ReadFault) => Status::ReadFault,
        Err(Stop::NoMemory) => Status::NoMemory,
    }
}
