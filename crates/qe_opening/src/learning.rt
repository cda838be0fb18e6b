//! What a caller learns of a reply: the contention of a field.

ghost use Rattle.std.specs.Prelude.{◌≡◌, slice_set};
ghost use Rattle.qe_protocol.specs.Next.{outcome_of};
ghost use Rattle.qe_encodes.specs.Callers.{learned, raised_field, with_contention};

use qe_plain::PlainCommand;
use qe_protocol::Reply;

// Sets a field's number, where there is one.
#[tactic(auto, using(std::proofs::lemmas::List::set_past))]
fn set(contentions: &mut [u64], field: u32, to: u64)
    ensures { contentions.new ≡ slice_set contentions.old field to }
{
    let place = field as usize;
    if place < contentions.len() {
        contentions[place] = to;
    }
}

// Sets the number of the field that a command raises.
fn set_raised(contentions: &mut [u64], plain: &PlainCommand, to: u64)
    ensures { contentions.new ≡ with_contention contentions.old (raised_field plain.now) to }
{
    if let PlainCommand::Raise { field, .. } = plain {
        set(contentions, *field, to);
    }
}

/// Sets each field's contention that the reply to a command tells: of a raise its field's, raised or not, and of a filter
/// with too few factors that of the term's field. Contentions stand by the fields' numbers. It takes no memory.
pub fn learn(contentions: &mut [u64], plain: &PlainCommand, reply: &Reply)
    ensures exact { contentions.new ≡ learned contentions.old plain.now (outcome_of reply.now) }
{
    match reply {
        Reply::Raised(to) => set_raised(contentions, plain, *to),
        Reply::NotRaised { current, .. } => set_raised(contentions, plain, *current),
        Reply::ContentionBelow { field, current, .. } => set(contentions, *field, *current),
        _ => {}
    }
}
