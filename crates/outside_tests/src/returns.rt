//! A client of doors in memory, which knows the number of a connection beforehand.

ghost use Rattle.std.specs.Prelude.{◌≡◌};

use ps_doors::{Doors, MemoryDoors};
use ps_io::{MemorySink, MemorySource};

/// Takes the first connection of doors that have handed out none and gives it back; of two other ends it makes nothing.
/// Says whether a connection came.
pub fn give_back_once(doors: &mut MemoryDoors, from: MemorySource, to: MemorySink) -> bool
    requires { ⟦<MemoryDoors as Doors>⟧.opened doors.old ≡ 0 }
{
    let other_from = from.numbered(0);
    let other_to = to.numbered(0);
    let Ok(Some((from, to))) = doors.next() else {
        return false;
    };
    doors.close(from, to);
    drop((other_from, other_to));
    true
}
