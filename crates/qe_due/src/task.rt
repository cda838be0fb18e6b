//! What is done with an input.

/// What is done with the bytes of an input.
#[derive(Clone, Copy)]
pub enum Task {
    /// They are run as a script.
    Replay,
    /// They are shown as blobs, a line of hex digits each.
    Show,
}
