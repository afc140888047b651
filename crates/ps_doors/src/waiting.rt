//! Connections in memory that are to come.

ghost use Rattle.std.specs.Prelude.{◌≡◌, IfOk};
ghost use Rattle.ps_doors.specs.Memory.{peer_of, peers_of};

use crate::Peer;
use crate::ends::Waiting;
use ps_data::{Items, Memory};
use ps_io::MemorySink;
use std::alloc::Global;
use std::collections::VecDeque;

// Makes a connection's sink.
fn wait_for(alloc: Global, peer: Peer) -> Result<Waiting, Memory>
    ensures { IfOk result (λ waiting. peer_of waiting ≡ peer) }
{
    let Peer {
        bytes,
        failing_reads,
        room,
        failing_writes,
    } = peer;
    let to = MemorySink::new(alloc, room, failing_writes)?;
    Ok(Waiting {
        bytes,
        failing_reads,
        to,
    })
}

// Makes the sinks of all connections.
pub(crate) fn wait_for_all(alloc: Global, peers: Items<Peer>) -> Result<VecDeque<Waiting>, Memory>
    ensures { IfOk result (λ all. peers_of all.items ≡ peers) }
{
    let mut all = VecDeque::with_capacity(alloc, peers.len())?;
    'peers: for peer in peers.into_vec() {
        all.push_back(wait_for(alloc, peer)?)?;
    }
    Ok(all)
}
