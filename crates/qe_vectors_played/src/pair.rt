//! An engine, and two clients that share it.

ghost use Rattle.std.specs.Prelude.{◌≡◌, ◌<◌, length, IfOk};
ghost use Rattle.qe_field.specs.Lookup.{encrypted_numbers};
ghost use Rattle.qe_script.specs.Read.{IsScript};
ghost use Rattle.qe_vectors_played.specs.Pairs.{AreUnder};

use qe_base::Duplicate;
use qe_client::Client;
use qe_engine::Engine;
use qe_line::Fault;
use qe_script::Script;
use std::alloc::Global;

/// An engine, and the clients of a script's two callers.
#[derive(Drop)]
pub struct Pair {
    pub engine: Engine,
    pub first: Client,
    pub second: Client,
}

// The client of the caller of a number.
fn client_of(alloc: Global, script: &Script, who: usize) -> Result<Client, Fault>
    requires within { who < length script.now.callers }
    requires keyed { length script.now.keys ≡ length (encrypted_numbers script.now.schema) }
    ensures { IfOk result (λ client. client.sender.under.schema ≡ script.now.schema) }
{
    let schema = script.schema.copy()?;
    let keys = script.keys.copy()?;
    let name = script.callers.slice()[who].copy()?;
    let mut client = Client::new(alloc, schema, keys, script.seed, name)?;
    client.write_leaves(script.leaf);
    Ok(client)
}

/// The engine and the clients before the first line. A script of another number of callers is refused.
pub fn pair_of(alloc: Global, script: &Script) -> Result<Pair, Fault>
    requires { IsScript script.now }
    ensures { IfOk result (AreUnder script.now.schema) }
{
    if script.callers.len() != 2 {
        return Err(Fault::Refused);
    }
    let first = client_of(alloc, script, 0)?;
    let second = client_of(alloc, script, 1)?;
    let engine = Engine::new(alloc, script.schema.copy()?)?;
    Ok(Pair {
        engine,
        first,
        second,
    })
}
