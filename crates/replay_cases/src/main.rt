//! Each line names a first number and how many scripts by chance are to be played: `streams SEED COUNT`, `uploads SEED COUNT` with local
//! writes, uploads and numbers, and `deploys SEED COUNT` with new rules besides. At each checkpoint that a client applies, the rows that it
//! shows are those that the definitions grant by the rules in force there.
#![tactic(auto)]

mod beside;
mod chance;
mod changes;
mod counting;
mod kinds;
mod playing;
mod readers;
mod scripts;
mod stages;
mod stops;

use kinds::Kind;
use std::alloc::Global;
use std::io;
use stops::Stop;

fn answer(alloc: Global, line: &str, out: &mut String) -> Result<(), Stop> {
    match line.split_once(' ') {
        Some(("streams", words)) => counting::write_scripts(alloc, words, Kind::Streams, out),
        Some(("uploads", words)) => counting::write_scripts(alloc, words, Kind::Uploads, out),
        Some(("deploys", words)) => counting::write_scripts(alloc, words, Kind::Deploys, out),
        _ => Err(Stop::Broken),
    }
}

fn answer_all(rt: &HostRuntime) -> Result<(), Stop> {
    let cases = io::read_to_string(rt.alloc(), rt.reader())?;
    'lines: for line in cases.as_str().lines() {
        let mut out = String::new(rt.alloc());
        answer(rt.alloc(), line, &mut out)?;
        println!(rt; "{}", out.as_str())?;
    }
    Ok(())
}

fn main(rt: HostRuntime) -> Result<(), &'static str> {
    answer_all(&rt).ok().ok_or("a line has no answer")
}
