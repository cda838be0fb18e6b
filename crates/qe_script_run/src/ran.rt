//! What a run leaves.

use qe_base::Listing;
use qe_client::{Census, Client};
use qe_engine::Engine;
use qe_plain::PlainReply;

/// What a run of a script leaves.
#[derive(Drop)]
pub struct Ran {
    /// The engine that served all lines.
    pub engine: Engine,
    /// A client for each caller, in the callers' order.
    pub clients: Vec<Client>,
    /// The words that commands stored and looked for; stray ones are in the engine's journal.
    pub census: Census,
    /// What each line was answered, as its caller reads it.
    pub replies: Listing<PlainReply>,
}
