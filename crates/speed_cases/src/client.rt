//! Lets a client take data lines of 1,000 PUTs, for `bench/client` to time: `client THOUSANDS LINES` takes those of
//! THOUSANDS thousand different rows, and then LINES lines more of the same rows, one row after the other. With a third word
//! the lines are made and nobody takes them. Prints the last id, and how many bytes all lines had.

use crate::shared::TITLE;
use case_words::number_in;
use ps_client::{Client, Event};
use ps_client_log::SureKeeper;
use ps_data::{Memory, Text};
use std::alloc::Global;
use std::io;

const CHECKPOINT: &str =
    "{\"checkpoint\":{\"buckets\":[{\"bucket\":\"mine[\\\"ann\\\"]\",\"checksum\":0,\"count\":0,\"priority\":3}],\"last_op_id\":\"9223372036854775807\"}}";

// Adds a PUT of a row of about 100 bytes.
fn push_put(line: &mut String, id: u64, row: u64) -> Result<(), Memory> {
    line.push_str("{\"checksum\":4294967295,\"data\":\"{\\\"id\\\":\\\"r")?;
    write!(
        line,
        "{row}\\\",\\\"owner\\\":\\\"ann\\\",\\\"title\\\":\\\"{TITLE}\\\"}}\",\"object_id\":\"r{row}\""
    )?;
    write!(
        line,
        ",\"object_type\":\"items\",\"op\":\"PUT\",\"op_id\":\"{id}\",\"subkey\":\"1/items/r{row}\"}}"
    )?;
    Ok(())
}

// The line that brings the PUTs of 1,000 rows from one on, with the ids after one.
fn data_line(alloc: Global, after: u64, first: u64) -> Result<String, Memory> {
    let mut line = String::new(alloc);
    write!(
        line,
        "{{\"data\":{{\"after\":\"{after}\",\"bucket\":\"mine[\\\"ann\\\"]\",\"data\":["
    )?;
    'ops: for before in 0..1000 {
        if before != 0 {
            line.push_str(",")?;
        }
        let id = after.wrapping_add(before).wrapping_add(1);
        push_put(&mut line, id, first.wrapping_add(before))?;
    }
    let last = after.wrapping_add(1000);
    write!(line, "],\"has_more\":true,\"next_after\":\"{last}\"}}}}")?;
    Ok(line)
}

// The line at a place, counted from 0, if there is memory.
fn line_at(alloc: Global, thousands: u64, place: u64) -> Option<String> {
    let first = place.checked_rem(thousands)?.wrapping_mul(1000);
    data_line(alloc, place.wrapping_mul(1000), first).ok()
}

// Makes so many lines, and says how many bytes they have.
fn make_lines(alloc: Global, thousands: u64, count: u64) -> Option<u64> {
    let mut bytes: u64 = 0;
    'lines: for place in 0..count {
        let line = line_at(alloc, thousands, place)?;
        bytes = bytes.wrapping_add(line.len() as u64);
    }
    Some(bytes)
}

// Takes a line of which nothing is said.
fn take(alloc: Global, client: &mut Client<SureKeeper>, line: &str) -> Option<()> {
    match client.take_line(alloc, line.as_bytes()) {
        Ok(Event::Nothing) => Some(()),
        _ => None,
    }
}

// Takes so many lines, and says how many bytes they have.
fn take_lines(
    alloc: Global,
    client: &mut Client<SureKeeper>,
    thousands: u64,
    count: u64,
) -> Option<u64> {
    let mut bytes: u64 = 0;
    'lines: for place in 0..count {
        let line = line_at(alloc, thousands, place)?;
        take(alloc, client, line.as_str())?;
        bytes = bytes.wrapping_add(line.len() as u64);
    }
    Some(bytes)
}

// Begins a stream with a checkpoint of one bucket.
fn begin(alloc: Global, client: &mut Client<SureKeeper>) -> Option<()> {
    let _request = client.request(alloc).ok()?;
    take(alloc, client, CHECKPOINT)
}

// Opens a client that keeps nothing, and lets it take so many lines.
fn open_and_take(alloc: Global, thousands: u64, count: u64) -> Option<u64> {
    let name = Text::from_str(alloc, "c").ok()?;
    let mut client = Client::open(alloc, SureKeeper::new(alloc), name).ok()?;
    begin(alloc, &mut client)?;
    take_lines(alloc, &mut client, thousands, count)
}

// The last id and the bytes of the lines, if the words are such.
fn figures_of(alloc: Global, thousands: &str, lines: &str, takes: bool) -> Option<(u64, u64)> {
    let thousands = number_in(thousands).ok()?;
    let count = thousands.checked_add(number_in(lines).ok()?)?;
    let bytes = if takes {
        open_and_take(alloc, thousands, count)?
    } else {
        make_lines(alloc, thousands, count)?
    };
    Some((count.wrapping_mul(1000), bytes))
}

/// Prints the last id, and how many bytes the lines have.
pub(crate) fn answer(rt: HostRuntime, words: &[&str]) -> io::Result<()> {
    let [thousands, lines, made @ ..] = words else {
        return println!(rt; "usage: client THOUSANDS LINES [made]");
    };
    match figures_of(rt.alloc(), thousands, lines, made.is_empty()) {
        Some((last, bytes)) => println!(rt; "{last} {bytes}"),
        None => println!(rt; "nothing"),
    }
}
