//! A client, and what it reads.

use qe_base::{Duplicate, KeyList, Text};
use qe_client::Client;
use qe_field::encrypted_numbers;
use qe_line::{Fault, accepted, print_line};
use qe_plain::PlainReply;
use qe_protocol::Reply;
use qe_schema::{Keys, Schema};
use qe_texts::reply_text;
use std::alloc::Global;

/// A client, and its schema.
#[derive(Drop)]
pub struct Reader {
    schema: Schema,
    client: Client,
}

/// The client of a schema and its keys.
pub fn reader_of(alloc: Global, schema: Schema, keys: KeyList) -> Result<Reader, Fault> {
    let kept = schema.copy()?;
    let client = client_of(alloc, schema, keys)?;
    Ok(Reader {
        schema: kept,
        client,
    })
}

fn client_of(alloc: Global, schema: Schema, keys: KeyList) -> Result<Client, Fault> {
    let keys = accepted(Keys::new(alloc, &schema, keys))?;
    let numbers = encrypted_numbers(alloc, schema.fields())?;
    if keys.len() != numbers.len() {
        return Err(Fault::Refused);
    }
    let name = Text::of(alloc, "reader")?;
    Ok(Client::new(alloc, schema, keys, [0; 32], name)?)
}

impl Reader {
    /// Prints what is read of a reply, or the first fault.
    pub fn print(&self, rt: &HostRuntime, name: &str, reply: &Reply) -> Result<(), Fault> {
        match self.client.answer(reply) {
            Ok(read) => self.print_read(rt, name, &read),
            Err(fault) => print_line(rt, format_args!("{name}: {fault:?}")),
        }
    }

    fn print_read(&self, rt: &HostRuntime, name: &str, read: &PlainReply) -> Result<(), Fault> {
        let text = accepted(reply_text(rt.alloc(), &self.schema, read))?;
        print_line(rt, format_args!("{name}: {}", text.as_str()))
    }
}
