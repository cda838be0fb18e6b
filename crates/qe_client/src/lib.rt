//! The client: what is sent for plain commands, what replies mean, and the labels of a run.
//!
//! ```
//! let mut client = Client::new(alloc, schema, keys, seed, name)?;
//! let sent = client.command(&plain)?; // the command's document, and the words that it indexes and asks for
//! let nonces = client.nonces(count)?; // the random words that follow
//! client.learn(&plain, &reply); // each field's contention, as far as the reply tells it
//! let answer = client.answer(&reply)?; // each stored value opened
//! ```
//!
//! A `Census` has the words of a run, and tells its labels and the first clash. Contracts see a client as what stays of a caller
//! and how far it has come (`Held`), and cite qe_encodes' definitions. Read: sent, client, census, laws; of `specs/`: Clients, Laws.
#![tactic(auto)]

mod census;
mod client;
mod laws;
mod sent;

pub use census::Census;
pub use client::Client;
pub use laws::the_items_of_a_journal_are_of_encrypted_fields;
pub use qe_census::LabelList;
pub use qe_opening::{ReadFault, ReadKind};
pub use qe_tokens::{Label, LabelKind, Word, Words};
pub use sent::Sent;
