//! What the types of a command's parts tell of them: tokens have their lengths, bytes are bytes, and numbers fit.
//!
//! With it a document of such parts is one of bytes, and payloads are read again as they are written. Read: values, held; of
//! `specs/`: Held; of `proofs/`: SoundLemmas, PayloadSound, PayloadLengths.
#![tactic(auto)]

mod held;
mod values;

pub use held::command_held;
pub use values::{are_bytes, value_held};
