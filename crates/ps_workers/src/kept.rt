//! The shared store as a value that a lock keeps.

ghost use Rattle.ps_workers.specs.Terms.{terms_by, KeepsShared};

use crate::shared::{SharedStore, Terms};
use ps_kept::Kept;
use ps_store::Event;

/// Each entry of the lock's history is an accepted changing call.
impl Kept for SharedStore {
    type Entry = Event;

    type Setting = Terms;

    ghost set_by = { terms_by };

    ghost stands = { KeepsShared };
}
