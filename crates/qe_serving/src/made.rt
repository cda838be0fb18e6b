//! What a command made: its reply, and what the journal notes beside it.

ghost use Rattle.std.specs.Prelude.{◌≡◌, []};

use qe_base::{Counts, Numbers};
use qe_protocol::Reply;
use std::alloc::Global;

/// What a command made.
#[derive(Drop)]
pub struct Made {
    /// The reply.
    pub reply: Reply,
    /// What each search found, in order.
    pub counts: Counts,
    /// The fields of the rows that were opened, in order.
    pub opened: Numbers,
}

impl Made {
    /// A reply without any row opened.
    pub(crate) fn searched(alloc: Global, reply: Reply, counts: Counts) -> Made
        ensures { result ≡ record { reply = reply; counts = counts; opened = [] } }
    {
        Made {
            reply,
            counts,
            opened: Numbers::new(alloc),
        }
    }

    /// A reply without any search.
    pub(crate) fn replied(alloc: Global, reply: Reply) -> Made
        ensures { result ≡ record { reply = reply; counts = []; opened = [] } }
    {
        Made::searched(alloc, reply, Counts::new(alloc))
    }
}
