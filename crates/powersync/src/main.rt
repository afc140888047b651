//! The program `powersync`: the system's words, files, streams and sockets, and the size of its stack.
#![tactic(auto)]

mod help;
mod jobs;

use help::help_for;
use jobs::{Job, job_of};
use ps_client_file::{close_store, open_store, store_status};
use ps_client_log::{Hashing, Keeper, VolatileKeeper};
use ps_commands::run_plain;
use ps_data::{Memory, Text};
use ps_files::{Fault, say};
use ps_io::{DiskFiles, Sink, StdSink, WallClock};
use ps_progress::{Meter, Nowhere};
use ps_serving::{Hears, run_serve};
use ps_sockets::{TcpDoors, TcpLink};
use ps_syncing::{run_sync_telling, store_of};
use sqlite::Unknown;
use std::alloc::Global;
use std::hash::RandomState;
use std::io::IsTerminal;
use std::process::ExitCode;
use std::sync::Wait;
use std::thread::Threads;
use std::{env, io, thread, time};

// Reading, checking and dropping a hostile file may nest as deep as it is long.
const STACK: usize = 1610612736;

// The words after the program's name; none where they cannot be had, as where one is not UTF-8.
fn words_of(rt: &HostRuntime) -> Vec<Text> {
    let mut words = Vec::new(rt.alloc());
    let Ok(arguments) = env::args(rt) else {
        return words;
    };
    'words: for argument in arguments.skip(1) {
        if words.push(Text::from_string(argument)).is_err() {
            return Vec::new(rt.alloc());
        }
    }
    words
}

// Prints what the program says of itself.
fn tell<K: Sink, E: Sink>(text: &str, out: &mut K, err: &mut E) -> u8 {
    match out.write(text.as_bytes()) {
        Ok(()) => 0,
        Err(_) => say(err, &Fault::CannotWrite),
    }
}

// The service, over the system's sockets and its clock.
fn serve<R: Wait + Threads + time::Clock + Sync + Hears, K: Sink, E: Sink>(
    rt: &HostRuntime,
    waits: &R,
    words: &[Text],
    out: &mut K,
    err: &mut E,
) -> u8 {
    let mut files = DiskFiles::new(*rt);
    let mut doors = TcpDoors::new(*rt);
    let clock = WallClock::new(*rt);
    run_serve(
        waits,
        rt.alloc(),
        words,
        &mut files,
        &mut doors,
        &clock,
        out,
        err,
    )
}

// Says that the system gives no random numbers.
fn say_no_random_numbers<E: Sink>(alloc: Global, err: &mut E) -> u8 {
    match Text::from_str(alloc, "random numbers") {
        Ok(name) => say(err, &Fault::CannotRead { name: &name }),
        Err(Memory) => say(err, &Fault::Memory),
    }
}

// A client over the system's sockets and a keeper. Where standard error is a terminal, it gets how far a long download is.
fn sync_over<R: Wait, P: Keeper, K: Sink, E: Sink>(
    rt: &HostRuntime,
    waits: &R,
    words: &[Text],
    hashing: Hashing,
    keeper: P,
    out: &mut K,
    err: &mut E,
) -> (u8, P) {
    let alloc = rt.alloc();
    let mut files = DiskFiles::new(*rt);
    let mut link = TcpLink::new(*rt);
    let stderr = rt.stderr();
    if stderr.is_terminal() {
        let mut meter = Meter::new(StdSink::new(io::writer(&stderr)));
        run_sync_telling(
            waits, alloc, words, &mut files, &mut link, keeper, out, err, &mut meter, hashing,
        )
    } else {
        let mut meter = Meter::off(Nowhere);
        run_sync_telling(
            waits, alloc, words, &mut files, &mut link, keeper, out, err, &mut meter, hashing,
        )
    }
}

// A client whose storage is a file.
fn sync_in_file<R: Wait, K: Sink, E: Sink>(
    rt: &HostRuntime,
    waits: &R,
    words: &[Text],
    hashing: Hashing,
    name: &Text,
    out: &mut K,
    err: &mut E,
) -> u8 {
    match open_store(rt, name, Unknown, hashing) {
        Ok(keeper) => {
            let (status, keeper) = sync_over(rt, waits, words, hashing, keeper, out, err);
            close_store(keeper);
            status
        }
        Err(fault) => store_status(&fault, err),
    }
}

// A client of a service, whose maps hash by a seed that is drawn here and that no service knows. Where no file is named for its storage, what it keeps ends
// with the program.
fn sync<R: Wait, K: Sink, E: Sink>(
    rt: &HostRuntime,
    waits: &R,
    words: &[Text],
    out: &mut K,
    err: &mut E,
) -> u8 {
    let hashing = match RandomState::new(rt) {
        Ok(keys) => Hashing::Seeded(keys),
        Err(_) => return say_no_random_numbers(rt.alloc(), err),
    };
    match store_of(rt.alloc(), words) {
        Ok(Some(name)) => sync_in_file(rt, waits, words, hashing, &name, out, err),
        Ok(None) => {
            let (status, _keeper) = sync_over(rt, waits, words, hashing, VolatileKeeper, out, err);
            status
        }
        Err(Memory) => say(err, &Fault::Memory),
    }
}

fn run<R: Wait + Threads + time::Clock + Sync + Hears>(rt: &HostRuntime, waits: &R) -> u8 {
    let words = words_of(rt);
    let words = words.as_slice();
    let stdout = rt.stdout();
    let stderr = rt.stderr();
    let mut out = StdSink::new(io::writer(&stdout));
    let mut err = StdSink::new(io::writer(&stderr));
    if let Some(text) = help_for(words) {
        return tell(text, &mut out, &mut err);
    }
    match job_of(words) {
        Job::Plain => {
            let mut files = DiskFiles::new(*rt);
            run_plain(rt.alloc(), words, &mut files, &mut out, &mut err)
        }
        Job::Serve => serve(rt, waits, words, &mut out, &mut err),
        Job::Sync => sync(rt, waits, words, &mut out, &mut err),
    }
}

fn main(rt: HostRuntime) -> ExitCode {
    let status = match thread::Builder::new()
        .stack_size(STACK)
        .spawn(&rt, move || run(&rt, &rt))
    {
        Ok(handle) => handle.join(&rt),
        Err(_) => run(&rt, &rt),
    };
    ExitCode::from(status)
}
