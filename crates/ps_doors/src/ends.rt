//! The two ends of a connection in memory.

ghost use Rattle.std.specs.Prelude.{◌≡◌, ◌≤◌, ◌<◌, [], ◌∷◌, ◌++◌, vec_len, vec_capacity};
ghost use Rattle.ps_io.specs.Memory.{HasItsMemory};

use ps_data::Items;
use ps_io::{MemorySink, MemorySource};

/// What the other side of a connection in memory sends and takes.
#[derive(Debug, Drop)]
pub struct Peer {
    /// The bytes that it sends.
    pub bytes: Items<u8>,
    /// The numbers, from 1, of the reads that are to fail.
    pub failing_reads: Items<u64>,
    /// How many bytes it takes.
    pub room: usize,
    /// The numbers, from 1, of the writes that are to fail.
    pub failing_writes: Items<u64>,
}

/// The two ends of a connection in memory.
#[derive(Debug, Drop)]
pub struct Ends {
    /// What the peer sends.
    pub from: MemorySource,
    /// What is sent to the peer.
    pub to: MemorySink,
}

// A connection that is to come: all that is needed for its ends without taking memory.
#[derive(Debug, Drop)]
pub(crate) struct Waiting {
    pub(crate) bytes: Items<u8>,
    pub(crate) failing_reads: Items<u64>,
    pub(crate) to: MemorySink,
    pub(crate) ghost empty: { to.bytes.items ≡ [] },
    pub(crate) ghost memory: { HasItsMemory to },
    pub(crate) ghost unused: { to.calls.made ≡ 0 },
    pub(crate) ghost quiet: { to.calls.faults ≡ 0 },
}

// Puts ends where there is room for them.
pub(crate) fn keep(closed: &mut Vec<Ends>, ends: Ends)
    requires { vec_len closed.old < vec_capacity closed.old }
    ensures items { closed.new.items ≡ closed.old.items ++ ends ∷ [] }
    ensures capacity { vec_capacity closed.old ≤ vec_capacity closed.new }
{
    let Ok(()) = closed.push(ends) else {
        unreachable!()
    };
}
