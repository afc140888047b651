//! Reads the lines of a file into JSON values by `serde_json` and drops them, and does nothing else: what `bench/rows`
//! measures the program against. Takes the file's name, and prints how many lines are JSON.

use ps_data::Text;
use ps_io::{DiskFiles, Files};
use serde_json::Value;
use std::alloc::Global;
use std::io;

const LIMIT: u64 = 268435456;

// How many lines are JSON.
fn count_lines(alloc: Global, bytes: &[u8]) -> u64 {
    let mut count: u64 = 0;
    'lines: for line in bytes.split(|byte| *byte == b'\n') {
        if Value::from_slice(alloc, line).is_ok() {
            count = count.wrapping_add(1);
        }
    }
    count
}

/// Prints how many lines of the file are JSON.
pub(crate) fn answer(rt: HostRuntime, words: &[&str]) -> io::Result<()> {
    let [name] = words else {
        return println!(rt; "usage: json FILE");
    };
    let Ok(name) = Text::from_str(rt.alloc(), name) else {
        return println!(rt; "nothing");
    };
    let mut files = DiskFiles::new(rt);
    match files.read(rt.alloc(), &name, LIMIT) {
        Ok(bytes) => println!(rt; "{}", count_lines(rt.alloc(), bytes.as_slice())),
        Err(_) => println!(rt; "no file"),
    }
}
