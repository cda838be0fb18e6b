//! The clients of a script's callers.

ghost use Rattle.std.specs.Prelude.{◌≡◌, ◌<◌, length, IfOk};
ghost use Rattle.qe_field.specs.Lookup.{encrypted_numbers};
ghost use Rattle.qe_encodes.specs.Callers.{opening_callers};
ghost use Rattle.qe_runs.specs.Runs.{setting_of};
ghost use Rattle.qe_line_run.specs.Running.{AreClients, IsClient};

use qe_base::{Duplicate, NoMemory};
use qe_client::Client;
use qe_script::Script;
use std::alloc::Global;

// The client of the caller of a number.
fn client_of(alloc: Global, script: &Script, who: usize) -> Result<Client, NoMemory>
    requires within { who < length script.now.callers }
    requires keyed { length script.now.keys ≡ length (encrypted_numbers script.now.schema) }
    ensures { IfOk result (IsClient (setting_of script.now) (opening_callers script.now.schema) who) }
{
    let schema = script.schema.copy()?;
    let keys = script.keys.copy()?;
    let name = script.callers.slice()[who].copy()?;
    let mut client = Client::new(alloc, schema, keys, script.seed, name)?;
    client.write_leaves(script.leaf);
    Ok(client)
}

/// A client for each caller, as it stands before the first line.
pub fn clients_of(alloc: Global, script: &Script) -> Result<Vec<Client>, NoMemory>
    requires keyed { length script.now.keys ≡ length (encrypted_numbers script.now.schema) }
    ensures { IfOk result (λ clients. AreClients (setting_of script.now) (opening_callers script.now.schema) clients.items) }
{
    let mut clients = Vec::new(alloc);
    for who in 0..script.callers.len() {
        clients.push(client_of(alloc, script, who)?)?;
    }
    Ok(clients)
}
