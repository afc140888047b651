//! Scripts by chance.

use crate::beside::{Beside, Marks};
use crate::chance::Chance;
use crate::changes::{push_change, transactions};
use crate::kinds::Kind;
use crate::playing::{
    cut, number, open, play, shows_what_is_due, switch, take, turn, upload, write,
};
use crate::readers::Reader;
use crate::stages::Stage;
use crate::stops::Stop;
use ps_data::{Memory, Text};
use ps_definitions::Rules;
use std::alloc::Global;

static BUCKETS: [&str; 7] = [
    "all[]",
    "own[\"ann\"]",
    "own[\"bob\"]",
    "items[\"l0\"]",
    "items[\"l1\"]",
    "items[\"l2\"]",
    "none[]",
];

/// What came of a script.
#[derive(Clone, Copy)]
pub struct Played {
    /// What came in it.
    pub marks: Marks,
    /// How many events it has.
    pub events: u64,
    /// What came that does not have to come, at the last event; None where all is well.
    pub stopped: Option<&'static str>,
}

// ---- clients

fn reader(alloc: Global, name: &'static str, user: &str, kind: Kind) -> Result<Reader, Memory> {
    if kind.has_uploads() {
        let client = Text::from_str(alloc, name)?;
        Reader::new(alloc, name, user, Some(client))
    } else {
        Reader::new(alloc, name, user, None)
    }
}

fn add_reader(
    alloc: Global,
    readers: &mut Vec<Reader>,
    name: &'static str,
    user: &str,
    kind: Kind,
) -> Result<(), Stop> {
    Ok(readers.push(reader(alloc, name, user, kind)?)?)
}

fn readers(alloc: Global, kind: Kind) -> Result<Vec<Reader>, Stop> {
    let mut readers = Vec::new(alloc);
    add_reader(alloc, &mut readers, "a", "ann", kind)?;
    add_reader(alloc, &mut readers, "b", "ann", kind)?;
    add_reader(alloc, &mut readers, "c", "bob", kind)?;
    Ok(readers)
}

fn play_clients(
    alloc: Global,
    stage: &mut Stage,
    beside: &mut Beside,
    kind: Kind,
) -> Result<(), Stop> {
    let (a, b, c) = if kind.has_uploads() {
        (
            "client a {\"token\":{\"sub\":\"ann\"},\"client_id\":\"a\"}",
            "client b {\"token\":{\"sub\":\"ann\"},\"client_id\":\"b\"}",
            "client c {\"token\":{\"sub\":\"bob\"},\"client_id\":\"c\"}",
        )
    } else {
        (
            "client a {\"token\":{\"sub\":\"ann\"}}",
            "client b {\"token\":{\"sub\":\"ann\"}}",
            "client c {\"token\":{\"sub\":\"bob\"}}",
        )
    };
    play(alloc, stage, beside, a)?;
    play(alloc, stage, beside, b)?;
    play(alloc, stage, beside, c)
}

// ---- events of the store

fn play_number(
    alloc: Global,
    stage: &mut Stage,
    beside: &mut Beside,
    word: &str,
    number: u64,
) -> Result<(), Stop> {
    let line = format!(in alloc; "{word} {number}")?;
    play(alloc, stage, beside, line.as_str())
}

fn compact(
    alloc: Global,
    stage: &mut Stage,
    beside: &mut Beside,
    bucket: &str,
) -> Result<(), Stop> {
    let force = beside.force;
    let line = if force == 1 {
        format!(in alloc; "compact {bucket}")?
    } else {
        format!(in alloc; "compact {force}#{bucket}")?
    };
    play(alloc, stage, beside, line.as_str())
}

fn compact_one(
    alloc: Global,
    stage: &mut Stage,
    beside: &mut Beside,
    place: u64,
) -> Result<(), Stop> {
    match BUCKETS.get(place as usize) {
        Some(bucket) => compact(alloc, stage, beside, bucket),
        None => Err(Stop::Broken),
    }
}

fn compact_all(alloc: Global, stage: &mut Stage, beside: &mut Beside) -> Result<(), Stop> {
    'buckets: for bucket in &BUCKETS {
        compact(alloc, stage, beside, bucket)?;
    }
    Ok(())
}

// Writes a batch of one of the sizes, from one change to all.
fn write_some(
    alloc: Global,
    stage: &mut Stage,
    beside: &mut Beside,
    chance: &mut Chance,
) -> Result<(), Stop> {
    let limit = match chance.below(6) {
        0 => 1000000,
        _ => chance.below(7).wrapping_add(1),
    };
    play_number(alloc, stage, beside, "write", limit)
}

// Transactions are fed, written and committed, and all buckets are compacted.
fn overtake(alloc: Global, stage: &mut Stage, beside: &mut Beside, count: u64) -> Result<(), Stop> {
    play_number(alloc, stage, beside, "feed", count)?;
    play(alloc, stage, beside, "write 1000000")?;
    play(alloc, stage, beside, "commit")?;
    compact_all(alloc, stage, beside)
}

// An event of the store, or some.
fn change_store(
    alloc: Global,
    stage: &mut Stage,
    beside: &mut Beside,
    chance: &mut Chance,
) -> Result<(), Stop> {
    let few = chance.below(3).wrapping_add(1);
    match chance.below(16) {
        0 | 1 | 2 => play_number(alloc, stage, beside, "feed", few),
        3 | 4 | 5 => write_some(alloc, stage, beside, chance),
        6 | 7 => play(alloc, stage, beside, "commit"),
        8 => compact_all(alloc, stage, beside),
        9 => play(alloc, stage, beside, "totals"),
        10 | 11 => {
            let place = chance.below(7);
            compact_one(alloc, stage, beside, place)
        }
        _ => overtake(alloc, stage, beside, few),
    }
}

// ---- new rules

// Builds a batch of one of the sizes, from one change to all.
fn build_some(
    alloc: Global,
    stage: &mut Stage,
    beside: &mut Beside,
    chance: &mut Chance,
) -> Result<(), Stop> {
    let limit = match chance.below(3) {
        0 => 1000000,
        _ => chance.below(3).wrapping_add(1),
    };
    play_number(alloc, stage, beside, "build", limit)
}

// A generation is built to its end, and comes into force where no transaction is written in part.
fn take_over(alloc: Global, stage: &mut Stage, beside: &mut Beside) -> Result<(), Stop> {
    play(alloc, stage, beside, "deploy")?;
    play(alloc, stage, beside, "write 1000000")?;
    play(alloc, stage, beside, "build 1000000")?;
    switch(alloc, stage, beside)
}

// An event of new rules, or some.
fn renew_some(
    alloc: Global,
    stage: &mut Stage,
    beside: &mut Beside,
    chance: &mut Chance,
) -> Result<(), Stop> {
    match chance.below(12) {
        0 | 1 | 2 => play(alloc, stage, beside, "deploy"),
        3 | 4 | 5 | 6 => build_some(alloc, stage, beside, chance),
        7 | 8 | 9 => switch(alloc, stage, beside),
        10 => play(alloc, stage, beside, "abandon"),
        _ => take_over(alloc, stage, beside),
    }
}

// ---- events of clients

fn turn_some(
    alloc: Global,
    stage: &mut Stage,
    beside: &mut Beside,
    reader: &mut Reader,
    count: u64,
) -> Result<(), Stop> {
    'turns: for _ in 0..count {
        turn(alloc, stage, beside, reader)?;
    }
    Ok(())
}

fn take_some(
    alloc: Global,
    stage: &mut Stage,
    beside: &mut Beside,
    reader: &mut Reader,
    count: u64,
) -> Result<(), Stop> {
    'takes: for _ in 0..count {
        take(alloc, stage, beside, reader)?;
    }
    Ok(())
}

// Some events of one client's stream.
fn stream_some(
    alloc: Global,
    stage: &mut Stage,
    beside: &mut Beside,
    reader: &mut Reader,
    chance: &mut Chance,
) -> Result<(), Stop> {
    if !reader.is_open && chance.below(4) != 0 {
        return open(alloc, stage, beside, reader);
    }
    let few = chance.below(2).wrapping_add(1);
    match chance.below(24) {
        0 => open(alloc, stage, beside, reader),
        1 => cut(alloc, stage, beside, reader),
        2 | 3 | 4 | 5 | 6 | 7 | 8 | 9 | 10 | 11 | 12 | 13 => {
            turn_some(alloc, stage, beside, reader, few)
        }
        _ => take_some(alloc, stage, beside, reader, few),
    }
}

fn write_change(
    alloc: Global,
    stage: &mut Stage,
    beside: &mut Beside,
    reader: &mut Reader,
    chance: &mut Chance,
) -> Result<(), Stop> {
    let mut change = String::new(alloc);
    push_change(chance, &mut change)?;
    write(alloc, stage, beside, reader, change.as_str())
}

// A local write, an upload or a write checkpoint of one client.
fn upload_some(
    alloc: Global,
    stage: &mut Stage,
    beside: &mut Beside,
    reader: &mut Reader,
    chance: &mut Chance,
) -> Result<(), Stop> {
    match chance.below(5) {
        0 => write_change(alloc, stage, beside, reader, chance),
        1 | 2 => {
            upload(alloc, stage, beside, reader)?;
            Ok(())
        }
        _ => number(alloc, stage, beside, reader),
    }
}

fn use_client(
    alloc: Global,
    stage: &mut Stage,
    beside: &mut Beside,
    reader: &mut Reader,
    chance: &mut Chance,
    kind: Kind,
) -> Result<(), Stop> {
    if kind.has_uploads() && chance.below(4) == 0 {
        upload_some(alloc, stage, beside, reader, chance)
    } else {
        stream_some(alloc, stage, beside, reader, chance)
    }
}

fn use_one(
    alloc: Global,
    stage: &mut Stage,
    beside: &mut Beside,
    readers: &mut [Reader],
    chance: &mut Chance,
    kind: Kind,
) -> Result<(), Stop> {
    let place = chance.below(3);
    match readers.get_mut(place as usize) {
        Some(reader) => use_client(alloc, stage, beside, reader, chance, kind),
        None => Err(Stop::Broken),
    }
}

// Events at any moment.
fn play_some(
    alloc: Global,
    stage: &mut Stage,
    beside: &mut Beside,
    readers: &mut [Reader],
    chance: &mut Chance,
    kind: Kind,
) -> Result<(), Stop> {
    let count = chance.below(40).wrapping_add(10);
    'events: for _ in 0..count {
        if kind.has_deploys() && chance.below(6) == 0 {
            renew_some(alloc, stage, beside, chance)?;
        } else if chance.below(5) == 0 {
            change_store(alloc, stage, beside, chance)?;
        } else {
            use_one(alloc, stage, beside, readers, chance, kind)?;
        }
    }
    Ok(())
}

// ---- the end

// All that waits at a client is uploaded, and numbered.
fn upload_all(
    alloc: Global,
    stage: &mut Stage,
    beside: &mut Beside,
    reader: &mut Reader,
) -> Result<(), Stop> {
    'uploads: for _ in 0..1000 {
        if !upload(alloc, stage, beside, reader)? {
            break;
        }
    }
    number(alloc, stage, beside, reader)
}

fn upload_everything(
    alloc: Global,
    stage: &mut Stage,
    beside: &mut Beside,
    readers: &mut [Reader],
) -> Result<(), Stop> {
    'readers: for reader in readers {
        upload_all(alloc, stage, beside, reader)?;
    }
    Ok(())
}

fn turn_all(
    alloc: Global,
    stage: &mut Stage,
    beside: &mut Beside,
    reader: &mut Reader,
) -> Result<(), Stop> {
    'turns: for _ in 0..1000 {
        if !turn(alloc, stage, beside, reader)? {
            break;
        }
    }
    Ok(())
}

fn take_all(
    alloc: Global,
    stage: &mut Stage,
    beside: &mut Beside,
    reader: &mut Reader,
) -> Result<(), Stop> {
    'takes: for _ in 0..1000 {
        if !take(alloc, stage, beside, reader)? {
            break;
        }
    }
    Ok(())
}

// A client takes all that there is for it, and then shows what is due at the checkpoint.
fn catch_up(
    alloc: Global,
    stage: &mut Stage,
    beside: &mut Beside,
    reader: &mut Reader,
) -> Result<(), Stop> {
    if !reader.is_open {
        open(alloc, stage, beside, reader)?;
    }
    turn_all(alloc, stage, beside, reader)?;
    take_all(alloc, stage, beside, reader)?;
    let (position, generation) = (beside.checkpoint, beside.force);
    shows_what_is_due(alloc, stage, beside, reader, position, generation)
}

// New rules come into force once all is written.
fn take_over_last(alloc: Global, stage: &mut Stage, beside: &mut Beside) -> Result<(), Stop> {
    play(alloc, stage, beside, "deploy")?;
    play(alloc, stage, beside, "build 1000000")?;
    switch(alloc, stage, beside)
}

// All is fed, uploaded, written and committed, and each client takes it.
fn finish(
    alloc: Global,
    stage: &mut Stage,
    beside: &mut Beside,
    readers: &mut [Reader],
    kind: Kind,
) -> Result<(), Stop> {
    play(alloc, stage, beside, "feed 1000000")?;
    if kind.has_uploads() {
        upload_everything(alloc, stage, beside, readers)?;
    }
    play(alloc, stage, beside, "close")?;
    play(alloc, stage, beside, "write 1000000")?;
    play(alloc, stage, beside, "commit")?;
    if kind.has_deploys() {
        take_over_last(alloc, stage, beside)?;
    }
    play(alloc, stage, beside, "totals")?;
    'readers: for reader in readers {
        catch_up(alloc, stage, beside, reader)?;
    }
    Ok(())
}

fn play_all(
    alloc: Global,
    stage: &mut Stage,
    beside: &mut Beside,
    readers: &mut [Reader],
    chance: &mut Chance,
    kind: Kind,
) -> Result<(), Stop> {
    play_clients(alloc, stage, beside, kind)?;
    play_some(alloc, stage, beside, readers, chance, kind)?;
    finish(alloc, stage, beside, readers, kind)
}

// Plays a script on a stage.
fn play_on(
    alloc: Global,
    stage: &mut Stage,
    beside: &mut Beside,
    chance: &mut Chance,
    kind: Kind,
) -> Result<Played, Stop> {
    let mut readers = readers(alloc, kind)?;
    let played = play_all(alloc, stage, beside, &mut readers, chance, kind);
    let stopped = match played {
        Ok(()) => None,
        Err(Stop::Differs { what }) => Some(what),
        Err(Stop::Broken) => return Err(Stop::Broken),
    };
    Ok(Played {
        marks: beside.marks,
        events: beside.events,
        stopped,
    })
}

/// Plays a script that follows from numbers.
pub fn play_script(
    alloc: Global,
    rules: &Rules,
    next: &Rules,
    chance: &mut Chance,
    kind: Kind,
) -> Result<Played, Stop> {
    let count = chance.below(20).wrapping_add(2);
    let gap = if kind.has_uploads() { 12 } else { 3 };
    let file = transactions(alloc, chance, count, gap)?;
    let mut beside = Beside::new(alloc, rules, next, file.as_slice())?;
    let rules = rules.copy(alloc)?;
    let next = next.copy(alloc)?;
    let mut stage = Stage::new(alloc, rules, file, next)?;
    play_on(alloc, &mut stage, &mut beside, chance, kind)
}
