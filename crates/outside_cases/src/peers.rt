//! Peers in memory, as a line has them, and how the ends of what was closed are printed.

use case_words::{Stop, number_in, push_shown, size_in};
use ps_data::Items;
use ps_doors::{Ends, Peer};
use ps_io::{Sink, Source};
use std::alloc::Global;

/// Numbers with commas between them, or `-` for none.
pub fn numbers(alloc: Global, word: &str) -> Result<Items<u64>, Stop> {
    let mut all = Items::new(alloc);
    if word == "-" {
        return Ok(all);
    }
    'numbers: for one in word.split(',') {
        all.push(number_in(one)?)?;
    }
    Ok(all)
}

fn peer(alloc: Global, word: &str) -> Result<Peer, Stop> {
    let mut parts = word.split('/');
    let bytes = parts.next().ok_or("no bytes")?;
    let reads = parts.next().ok_or("no reads")?;
    let room = parts.next().ok_or("no room")?;
    let writes = parts.next().ok_or("no writes")?;
    Ok(Peer {
        bytes: Items::from_vec(Vec::from_slice(alloc, bytes.as_bytes())?),
        failing_reads: numbers(alloc, reads)?,
        room: size_in(room)?,
        failing_writes: numbers(alloc, writes)?,
    })
}

/// Peers with spaces between them.
pub fn peers(alloc: Global, words: &str) -> Result<Items<Peer>, Stop> {
    let mut all = Items::new(alloc);
    'peers: for word in words.split(' ') {
        all.push(peer(alloc, word)?)?;
    }
    Ok(all)
}

fn write_ends(ends: &Ends, out: &mut String) -> Result<(), Stop> {
    out.push_str("; [")?;
    push_shown(ends.from.given(), out)?;
    out.push_str("] [")?;
    push_shown(ends.to.bytes(), out)?;
    let is_ended = if ends.from.has_ended() {
        "ended"
    } else {
        "open"
    };
    Ok(write!(
        out,
        "] {} {} {is_ended}",
        ends.from.read_faults(),
        ends.to.write_faults()
    )?)
}

/// Writes of each closed connection what its ends tell.
pub fn write_closed(closed: &[Ends], out: &mut String) -> Result<(), Stop> {
    'closed: for ends in closed {
        write_ends(ends, out)?;
    }
    Ok(())
}
