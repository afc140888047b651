//! What the scripts of `bench/` time. Each line is the words of a work, with one space between two of them, and prints what came of it: the
//! scripts hand such lines over, one in each run. The head of each module says which words it takes.
#![tactic(auto)]

mod checksum;
mod client;
mod client_log;
mod entries;
mod eval;
mod json;
mod lines;
mod lookups;
mod shared;
mod sql;
mod store;
mod stores;
mod take;

use case_words::Stop;
use std::alloc::Global;
use std::io;
use std::thread::Threads;

// Does the work that words ask for.
fn answer<T: Threads>(rt: HostRuntime, threads: &T, words: &[&str]) -> io::Result<()> {
    let [work, words @ ..] = words else {
        return println!(rt; "nothing");
    };
    match *work {
        "checksum" => checksum::answer(rt, words),
        "client" => client::answer(rt, words),
        "client-log" => client_log::answer(rt, words),
        "entries" => entries::answer(rt, words),
        "eval" => eval::answer(rt, threads, words),
        "json" => json::answer(rt, words),
        "lines" => lines::answer(rt, words),
        "lookups" => lookups::answer(rt, words),
        "sql" => sql::answer(rt, threads, words),
        "store" => store::answer(rt, words),
        "take" => take::answer(rt, words),
        _ => println!(rt; "no such work"),
    }
}

// The words of a line; none where there is no memory.
fn words_of(alloc: Global, line: &str) -> Vec<&str> {
    let mut words = Vec::new(alloc);
    'words: for word in line.split(' ') {
        if words.push(word).is_err() {
            return Vec::new(alloc);
        }
    }
    words
}

// Does the work of each line.
fn answer_all<T: Threads>(rt: HostRuntime, threads: &T) -> Result<(), Stop> {
    let cases = io::read_to_string(rt.alloc(), rt.reader())?;
    'lines: for line in cases.as_str().lines() {
        answer(rt, threads, words_of(rt.alloc(), line).as_slice())?;
    }
    Ok(())
}

fn main(rt: HostRuntime) -> Result<(), &'static str> {
    answer_all(rt, &rt).ok().ok_or("a line has no answer")
}
