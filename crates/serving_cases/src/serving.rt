//! A service over doors in memory.

use crate::files::{Given, failing, files_of, request, words_of};
use crate::noting::{Coming, Notes, NotingDoors};
use case_words::{Stop, cut, number_in, push_shown};
use ps_data::Items;
use ps_doors::{Ends, MemoryDoors};
use ps_io::{MemoryClock, MemorySink, Sink};
use ps_serving::{Hears, run_serve};
use std::alloc::Global;
use std::sync::Wait;
use std::thread::Threads;
use std::{mem, time};

// The room of standard output and of standard error.
const ROOM: usize = 4096;

// The last line that is not empty, without its line feed.
fn last_line(bytes: &[u8]) -> &[u8] {
    let mut last: &[u8] = b"";
    'lines: for line in bytes.split(|byte| *byte == b'\n') {
        if !matches!(line, b"" | b"\r") {
            last = line;
        }
    }
    last
}

// What came of a connection: the first line's status, and the last line.
fn push_ends(ends: &Ends, out: &mut String) -> Result<(), Stop> {
    let bytes = ends.to.bytes();
    if ends.to.write_faults() > 0 {
        out.push_str("failed")?;
    } else if let Some(code) = bytes.get(9..12) {
        push_shown(code, out)?;
        out.push_str(" ")?;
        push_shown(last_line(bytes), out)?;
    }
    Ok(out.push_str("\n")?)
}

/// Runs a service, and says what came of it.
pub fn serve<R: Wait + time::Clock + Threads + Sync + Hears>(
    rt: &R,
    alloc: Global,
    given: &mut Given,
    rest: &str,
    out: &mut String,
) -> Result<(), Stop> {
    let (calls, rest) = cut(rest);
    let words = words_of(alloc, rest)?;
    let peers = mem::replace(&mut given.peers, Vec::new(alloc));
    let mut files = files_of(alloc, given)?;
    let mut doors = MemoryDoors::new(alloc, Items::from_vec(peers), failing(alloc, calls)?)?;
    let clock = MemoryClock::new(99, 0);
    let mut to = MemorySink::new(alloc, ROOM, Items::new(alloc))?;
    let mut err = MemorySink::new(alloc, ROOM, Items::new(alloc))?;
    let status = run_serve(
        rt,
        alloc,
        words.as_slice(),
        &mut files,
        &mut doors,
        &clock,
        &mut to,
        &mut err,
    );
    write!(out, "{status} ")?;
    push_shown(to.bytes(), out)?;
    push_shown(err.bytes(), out)?;
    out.push_str("\n")?;
    'closed: for ends in doors.closed() {
        push_ends(ends, out)?;
    }
    Ok(())
}

// Runs a service over streams of ann, whose sinks note what they take.
fn serve_noting<R: Wait + time::Clock + Threads + Sync + Hears>(
    rt: &R,
    alloc: Global,
    given: &Given,
    coming: Coming,
    notes: &Notes,
    rest: &str,
) -> Result<u8, Stop> {
    let words = words_of(alloc, rest)?;
    let mut files = files_of(alloc, given)?;
    let request = request(
        alloc,
        given,
        "/sync/stream",
        "{\"exp\":100,\"sub\":\"ann\"}",
        "{}",
    )?;
    let mut doors = NotingDoors::new(alloc, notes, request.as_slice(), coming);
    let clock = MemoryClock::new(99, 0);
    let mut to = MemorySink::new(alloc, ROOM, Items::new(alloc))?;
    let mut err = MemorySink::new(alloc, ROOM, Items::new(alloc))?;
    Ok(run_serve(
        rt,
        alloc,
        words.as_slice(),
        &mut files,
        &mut doors,
        &clock,
        &mut to,
        &mut err,
    ))
}

/// Runs a service over streams that come one after another until one has taken a MOVE.
pub fn serve_until_moved<R: Wait + time::Clock + Threads + Sync + Hears>(
    rt: &R,
    alloc: Global,
    given: &Given,
    rest: &str,
    out: &mut String,
) -> Result<(), Stop> {
    let (most, rest) = cut(rest);
    let coming = Coming::OneByOne {
        most: number_in(most)?,
    };
    let notes = Notes::new();
    let status = serve_noting(rt, alloc, given, coming, &notes, rest)?;
    let moved = if notes.has_moved() { "moved" } else { "none" };
    Ok(write!(out, "{status} {moved}\n")?)
}

/// Runs a service over two streams, of which the first waits for the second.
pub fn serve_two<R: Wait + time::Clock + Threads + Sync + Hears>(
    rt: &R,
    alloc: Global,
    given: &Given,
    rest: &str,
    out: &mut String,
) -> Result<(), Stop> {
    let notes = Notes::new();
    let status = serve_noting(rt, alloc, given, Coming::Two, &notes, rest)?;
    let completed = notes.completed();
    Ok(write!(out, "{status} {completed}\n")?)
}
