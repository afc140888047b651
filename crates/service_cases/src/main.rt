//! Answers the cases of its standard input: behind a heading, `== PART`, each line is a case of that part, and the head of the part's module
//! says what it may be. A heading is printed as it stands.
#![tactic(auto)]

mod chance;
mod commands;
mod granting;
mod lines;
mod lookups;
mod over_texts;
mod placing;
mod reading;
mod serving;
mod storing;
mod texts;
mod turns;

use case_words::Stop;
use std::{io, thread};

// That of the program: reading, checking and dropping a hostile file may nest as deep as it is long.
const STACK: usize = 1610612736;

fn answer_part(rt: &HostRuntime, part: &str, cases: &str) -> Result<(), Stop> {
    match part {
        "texts" => over_texts::answer_all(rt, cases),
        "connections" => serving::answer_all(rt, cases),
        _ => Err("no such part".into()),
    }
}

fn answer_all(rt: &HostRuntime) -> Result<(), Stop> {
    let text = io::read_to_string(rt.alloc(), rt.reader())?;
    let parts = text.as_str().strip_prefix("== ").ok_or("no heading")?;
    'parts: for part in parts.split("\n== ") {
        let (part, cases) = part.split_once('\n').unwrap_or((part, ""));
        println!(rt; "== {part}")?;
        answer_part(rt, part, cases)?;
    }
    Ok(())
}

// Whether all lines were answered.
fn answered(rt: &HostRuntime) -> bool {
    answer_all(rt).is_ok()
}

fn main(rt: HostRuntime) -> Result<(), &'static str> {
    let handle = thread::Builder::new()
        .stack_size(STACK)
        .spawn(&rt, move || answered(&rt))
        .ok()
        .ok_or("no thread")?;
    if handle.join(&rt) {
        Ok(())
    } else {
        Err("a line has no answer")
    }
}
