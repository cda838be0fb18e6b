//! What the engine keeps.

ghost use Rattle.std.specs.Prelude.{◌≡◌};
ghost use Rattle.qe_protocol.specs.State.{opening_with};
ghost use Rattle.qe_serving.specs.Serving.{state_in};

use qe_base::Numbers;
use qe_compact::Upkeep;
use qe_ecoc::Ecoc;
use qe_esc::Esc;
use qe_store::Store;
use std::alloc::Global;

/// The documents, the index, maintenance, and each field's current contention.
#[derive(Drop)]
pub struct Collections {
    /// Where memory comes from.
    pub alloc: Global,
    /// The documents.
    pub store: Store,
    /// Rows by identifier.
    pub esc: Esc,
    /// Rows for the next compaction or cleanup.
    pub ecoc: Ecoc,
    /// Maintenance.
    pub upkeep: Upkeep,
    /// Each field's current contention, by the field's number; 0 for a plain field.
    pub current: Vec<u64>,
}

impl Collections {
    /// No documents, no rows and no work, under these contentions.
    pub fn new(alloc: Global, current: Vec<u64>) -> Collections
        ensures state { state_in result ≡ opening_with current.items }
        ensures made { result.store.made ≡ 0 }
    {
        Collections {
            alloc,
            store: Store::new(alloc),
            esc: Esc::new(alloc),
            ecoc: Ecoc::new(alloc),
            upkeep: Upkeep::new(alloc),
            current,
        }
    }
}
