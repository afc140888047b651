//! Writes or reads one data line of 1,000 operations again and again, for `bench/lines` to time: `write COUNT` by
//! `write_line`, `read COUNT` by `read_line`, and the same text by `serde_json` alone: `json-write COUNT` and
//! `json-read COUNT`. Prints how many bytes were written or read.

ghost use Rattle.std.specs.Prelude.{◌≡◌, ◌≢◌, [], ◌+◌, IfOk};
ghost use Rattle.ps_bucket_log.specs.Ops.{newest};
ghost use Rattle.ps_bucket_log.specs.Logs.{IsRising};
ghost use Rattle.ps_lines.specs.Writing.{IsWritable};

use crate::shared::put;
use case_words::number_in;
use ps_bucket_log::Op;
use ps_data::{Items, Memory, OpId, Text};
use ps_lines::{Line, read_line, write_line};
use serde_json::Value as Json;
use std::alloc::Global;
use std::io;

// The operations with the ids from 1 to 1,000.
fn puts(alloc: Global) -> Result<Items<Op>, Memory>
    ensures { IfOk result (λ ops. (ops ≢ []) × IsRising 0 ops × (newest ops ≡ 1000)) }
{
    let mut ops = Vec::new(alloc);
    'ops: for before in 0..1000 {
        ops.push(put(alloc, before + 1, before + 1)?)?;
    }
    Ok(Items::from_vec(ops))
}

fn data_line(alloc: Global) -> Result<Line, Memory>
    ensures { IfOk result IsWritable }
{
    Ok(Line::Data {
        bucket: Text::from_str(alloc, "mine[\"ann\"]")?,
        after: OpId(0),
        has_more: true,
        ops: puts(alloc)?,
        next_after: OpId(1000),
    })
}

fn write_lines(alloc: Global, line: &Line, count: u64) -> Option<u64>
    requires { IsWritable line.now }
{
    let mut written: u64 = 0;
    'lines: for _ in 0..count {
        let text = write_line(alloc, line).ok()?;
        written = written.wrapping_add(text.len() as u64);
    }
    Some(written)
}

fn read_lines(alloc: Global, text: &[u8], count: u64) -> Option<u64> {
    let mut read: u64 = 0;
    'lines: for _ in 0..count {
        let _line = read_line(alloc, text).ok()?;
        read = read.wrapping_add(text.len() as u64);
    }
    Some(read)
}

fn write_json(alloc: Global, json: &Json, count: u64) -> Option<u64> {
    let mut written: u64 = 0;
    'texts: for _ in 0..count {
        let text = json.to_vec(alloc).ok()?;
        written = written.wrapping_add(text.len() as u64);
    }
    Some(written)
}

fn read_json(alloc: Global, text: &[u8], count: u64) -> Option<u64> {
    let mut read: u64 = 0;
    'texts: for _ in 0..count {
        let _json = Json::from_slice(alloc, text).ok()?;
        read = read.wrapping_add(text.len() as u64);
    }
    Some(read)
}

// How many bytes the work that the words ask for took, if they are such words and there is memory.
fn bytes_of(alloc: Global, work: &str, count: &str) -> Option<u64> {
    let count = number_in(count).ok()?;
    let line = data_line(alloc).ok()?;
    let text = write_line(alloc, &line).ok()?;
    match work {
        "write" => write_lines(alloc, &line, count),
        "read" => read_lines(alloc, text.as_slice(), count),
        "json-write" => {
            let json = Json::from_slice(alloc, text.as_slice()).ok()?;
            write_json(alloc, &json, count)
        }
        "json-read" => read_json(alloc, text.as_slice(), count),
        _ => None,
    }
}

/// Prints how many bytes the work that the words ask for took.
pub(crate) fn answer(rt: HostRuntime, words: &[&str]) -> io::Result<()> {
    let [work, count] = words else {
        return println!(rt; "usage: lines write|read|json-write|json-read COUNT");
    };
    match bytes_of(rt.alloc(), work, count) {
        Some(bytes) => println!(rt; "{bytes}"),
        None => println!(rt; "nothing"),
    }
}
