//! A run before its first line.

ghost use Rattle.std.specs.Prelude.{◌≡◌, [], length, IfOk};
ghost use Rattle.qe_field.specs.Lookup.{encrypted_numbers};
ghost use Rattle.qe_runs.specs.Runs.{setting_of};
ghost use Rattle.qe_script_run.specs.Reached.{IsReached};

use crate::ran::Ran;
use qe_base::{Duplicate, Listing, NoMemory};
use qe_client::Census;
use qe_engine::Engine;
use qe_line_run::clients_of;
use qe_script::Script;
use std::alloc::Global;

/// A run before its first line.
pub(crate) fn begin(alloc: Global, script: &Script) -> Result<Ran, NoMemory>
    requires keyed { length script.now.keys ≡ length (encrypted_numbers script.now.schema) }
    ensures { IfOk result (IsReached (setting_of script.now) []) }
{
    let clients = clients_of(alloc, script)?;
    let engine = Engine::new(alloc, script.schema.copy()?)?;
    Ok(Ran {
        engine,
        clients,
        census: Census::new(alloc),
        replies: Listing::new(alloc),
    })
}
