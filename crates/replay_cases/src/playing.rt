//! Events, and what has to come of them.

use crate::beside::Beside;
use crate::readers::{Begun, Reader};
use crate::stages::Stage;
use crate::stops::{Stop, expect};
use ps_core::Effect;
use ps_data::{Items, OpId, Position};
use ps_lines::Line;
use ps_rows::Shown;
use ps_script::{ScriptEvent, ScriptFault, read_event};
use std::alloc::Global;

fn event_of(alloc: Global, line: &str) -> Result<ScriptEvent, Stop> {
    match read_event(alloc, line.as_bytes()) {
        Ok(event) => Ok(event),
        Err(_) => Err(Stop::Broken),
    }
}

// The effect of a line; None where it may not come now.
fn effect_of(alloc: Global, stage: &mut Stage, line: &str) -> Result<Option<Effect>, Stop> {
    let event = event_of(alloc, line)?;
    match stage.step(alloc, &event) {
        Ok(effect) => Ok(Some(effect)),
        Err(ScriptFault::WrongPhase) => Ok(None),
        Err(ScriptFault::BadEvent) => Err(Stop::Differs {
            what: "a line is no event",
        }),
        Err(ScriptFault::UnknownClient) => Err(Stop::Differs {
            what: "a client is not known",
        }),
        Err(ScriptFault::Memory) => Err(Stop::Broken),
    }
}

// The effect of a line that may come.
fn effect(
    alloc: Global,
    stage: &mut Stage,
    beside: &mut Beside,
    line: &str,
) -> Result<Effect, Stop> {
    beside.events = beside.events.wrapping_add(1);
    match effect_of(alloc, stage, line)? {
        Some(effect) => Ok(effect),
        None => Err(Stop::Differs {
            what: "a line may not come",
        }),
    }
}

// ---- the store

fn note(beside: &mut Beside, effect: &Effect) -> Result<(), Stop> {
    match effect {
        Effect::Fed { count } | Effect::FedNotRising { count, .. } | Effect::FedClosed { count } =>
            beside.feed(*count),
        Effect::Wrote { changes, .. } => {
            beside.write(*changes);
            Ok(())
        }
        Effect::Committed { checkpoint } => beside.commit(checkpoint.position),
        Effect::NothingToCommit => beside.has_committed(),
        Effect::Totals { totals } => beside.are_totals(totals),
        Effect::Generation { generation } => beside.deploy(*generation),
        Effect::Abandoned { generation } => beside.abandon(*generation),
        Effect::Building { .. } | Effect::Built { .. } | Effect::NothingToBuild => {
            beside.is_building()
        }
        Effect::NothingBuilding => beside.builds_none(),
        Effect::Closed
        | Effect::NothingToWrite
        | Effect::Compacted { .. }
        | Effect::NoBucket
        | Effect::Client { .. } => Ok(()),
        _ => Err(Stop::Differs {
            what: "no effect of such an event",
        }),
    }
}

/// Plays a line that names no client.
pub fn play(alloc: Global, stage: &mut Stage, beside: &mut Beside, line: &str) -> Result<(), Stop> {
    let effect = effect(alloc, stage, beside, line)?;
    note(beside, &effect)
}

fn note_switch(beside: &mut Beside, effect: &Effect) -> Result<(), Stop> {
    match effect {
        Effect::Committed { checkpoint } => beside.switch(checkpoint.position),
        Effect::NotBuilt { .. } | Effect::HalfWritten { .. } => beside.is_building(),
        Effect::NothingBuilding => beside.builds_none(),
        _ => Err(Stop::Differs {
            what: "no effect of a switch",
        }),
    }
}

/// The generation that is being built comes into force, where it may.
pub fn switch(alloc: Global, stage: &mut Stage, beside: &mut Beside) -> Result<(), Stop> {
    let effect = effect(alloc, stage, beside, "switch")?;
    note_switch(beside, &effect)
}

// ---- rows

fn shown(
    alloc: Global,
    stage: &mut Stage,
    beside: &mut Beside,
    reader: &Reader,
) -> Result<Items<Shown>, Stop> {
    let name = reader.name;
    let line = format!(in alloc; "rows {name}")?;
    match effect(alloc, stage, beside, line.as_str())? {
        Effect::Rows { rows } => Ok(rows),
        _ => Err(Stop::Differs { what: "no rows" }),
    }
}

/// A client shows exactly the rows that are due to it at a position, by the rules of a generation.
pub fn shows_what_is_due(
    alloc: Global,
    stage: &mut Stage,
    beside: &mut Beside,
    reader: &Reader,
    position: Position,
    generation: u32,
) -> Result<(), Stop> {
    let shown = shown(alloc, stage, beside, reader)?;
    let due = beside.due(alloc, &reader.asker, position, generation)?;
    expect(
        shown.as_slice() == due.as_slice(),
        "a client shows other rows than are due",
    )
}

// ---- streams

// The effect of an event of a stream; None where there is no stream, and the event is refused.
fn effect_in_stream(
    alloc: Global,
    stage: &mut Stage,
    beside: &mut Beside,
    reader: &Reader,
    word: &str,
) -> Result<Option<Effect>, Stop> {
    let name = reader.name;
    let line = format!(in alloc; "{word} {name}")?;
    beside.events = beside.events.wrapping_add(1);
    let effect = effect_of(alloc, stage, line.as_str())?;
    expect(
        effect.is_some() == reader.is_open,
        "an event of a stream may come without one, or not with one",
    )?;
    Ok(effect)
}

fn begin(
    beside: &mut Beside,
    reader: &mut Reader,
    op: OpId,
    number: Option<u64>,
) -> Result<(), Stop> {
    let begun = Begun {
        position: beside.checkpoint,
        generation: beside.force,
        op,
        number: number.unwrap_or(0),
    };
    if reader.begin(begun)? {
        beside.marks.gave_up = true;
    }
    Ok(())
}

fn note_line(beside: &mut Beside, reader: &mut Reader, line: &Line) -> Result<(), Stop> {
    match line {
        Line::Checkpoint {
            last_op,
            number,
            ..
        } => begin(beside, reader, *last_op, *number),
        Line::Diff {
            last_op,
            number,
            removed,
            ..
        } => {
            if !removed.is_empty() {
                beside.marks.removed = true;
            }
            begin(beside, reader, *last_op, *number)
        }
        Line::Data { .. } => reader.go_on(),
        Line::Complete { .. } => reader.complete(),
        Line::Expires { .. } | Line::Unknown => Err(Stop::Differs {
            what: "no line of a session",
        }),
    }
}

// Whether the session did anything.
fn note_turn(beside: &mut Beside, reader: &mut Reader, effect: &Effect) -> Result<bool, Stop> {
    match effect {
        Effect::Line { line } => {
            note_line(beside, reader, line.line())?;
            Ok(true)
        }
        Effect::Passed { .. } => {
            beside.marks.passed = true;
            beside.marks.gave_up = true;
            Ok(true)
        }
        Effect::Waiting => Ok(false),
        _ => Err(Stop::Differs {
            what: "no effect of a turn",
        }),
    }
}

/// One action of a client's session. Whether it did anything.
pub fn turn(
    alloc: Global,
    stage: &mut Stage,
    beside: &mut Beside,
    reader: &mut Reader,
) -> Result<bool, Stop> {
    match effect_in_stream(alloc, stage, beside, reader, "turn")? {
        Some(effect) => note_turn(beside, reader, &effect),
        None => Ok(false),
    }
}

fn note_applied(
    alloc: Global,
    stage: &mut Stage,
    beside: &mut Beside,
    reader: &mut Reader,
    op: OpId,
) -> Result<(), Stop> {
    beside.marks.applied = beside.marks.applied.wrapping_add(1);
    reader.take()?;
    let begun = reader.applied(op)?;
    shows_what_is_due(
        alloc,
        stage,
        beside,
        reader,
        begun.position,
        begun.generation,
    )
}

// Whether there was a line.
fn note_take(
    alloc: Global,
    stage: &mut Stage,
    beside: &mut Beside,
    reader: &mut Reader,
    effect: &Effect,
) -> Result<bool, Stop> {
    match effect {
        Effect::Nothing => reader.take()?,
        Effect::Applied { op } => note_applied(alloc, stage, beside, reader, *op)?,
        Effect::Held { .. } => {
            beside.marks.held = beside.marks.held.wrapping_add(1);
            reader.may_wait()?;
            reader.take()?;
        }
        Effect::NoLine => {
            reader.has_none()?;
            return Ok(false);
        }
        _ => expect(false, "a client does not take a line")?,
    }
    Ok(true)
}

/// A client takes its oldest line. Whether there was one.
pub fn take(
    alloc: Global,
    stage: &mut Stage,
    beside: &mut Beside,
    reader: &mut Reader,
) -> Result<bool, Stop> {
    match effect_in_stream(alloc, stage, beside, reader, "take")? {
        Some(effect) => note_take(alloc, stage, beside, reader, &effect),
        None => Ok(false),
    }
}

/// Cuts a client's stream.
pub fn cut(
    alloc: Global,
    stage: &mut Stage,
    beside: &mut Beside,
    reader: &mut Reader,
) -> Result<(), Stop> {
    match effect_in_stream(alloc, stage, beside, reader, "cut")? {
        Some(Effect::Cut { .. }) => {
            reader.cut();
            Ok(())
        }
        Some(_) => Err(Stop::Differs {
            what: "no effect of a cut",
        }),
        None => Ok(()),
    }
}

// The effect of an event of a client that needs no stream.
fn effect_of_reader(
    alloc: Global,
    stage: &mut Stage,
    beside: &mut Beside,
    reader: &Reader,
    word: &str,
) -> Result<Effect, Stop> {
    let name = reader.name;
    let line = format!(in alloc; "{word} {name}")?;
    effect(alloc, stage, beside, line.as_str())
}

/// Begins a stream of a client.
pub fn open(
    alloc: Global,
    stage: &mut Stage,
    beside: &mut Beside,
    reader: &mut Reader,
) -> Result<(), Stop> {
    match effect_of_reader(alloc, stage, beside, reader, "open")? {
        Effect::Opened { .. } => {
            reader.open();
            Ok(())
        }
        _ => Err(Stop::Differs {
            what: "no effect of an open",
        }),
    }
}

// ---- uploads

/// A client writes a change locally.
pub fn write(
    alloc: Global,
    stage: &mut Stage,
    beside: &mut Beside,
    reader: &mut Reader,
    change: &str,
) -> Result<(), Stop> {
    let name = reader.name;
    let line = format!(in alloc; "local {name} {change}")?;
    match effect(alloc, stage, beside, line.as_str())? {
        Effect::Local { .. } => note_write(alloc, reader, line.as_str()),
        _ => Err(Stop::Differs {
            what: "no effect of a local write",
        }),
    }
}

fn note_write(alloc: Global, reader: &mut Reader, line: &str) -> Result<(), Stop> {
    match event_of(alloc, line)? {
        ScriptEvent::Local { change, .. } => reader.write(change),
        _ => Err(Stop::Broken),
    }
}

/// A client's oldest local write is uploaded. Whether there was one.
pub fn upload(
    alloc: Global,
    stage: &mut Stage,
    beside: &mut Beside,
    reader: &mut Reader,
) -> Result<bool, Stop> {
    match effect_of_reader(alloc, stage, beside, reader, "upload")? {
        Effect::Uploaded { position } => {
            let change = reader.upload(position)?;
            beside.upload(alloc, change, position)?;
            Ok(true)
        }
        Effect::QueueEmpty => {
            reader.waits_for_none()?;
            Ok(false)
        }
        _ => Err(Stop::Differs {
            what: "no effect of an upload",
        }),
    }
}

/// A client gets a write checkpoint.
pub fn number(
    alloc: Global,
    stage: &mut Stage,
    beside: &mut Beside,
    reader: &mut Reader,
) -> Result<(), Stop> {
    match effect_of_reader(alloc, stage, beside, reader, "number")? {
        Effect::Number { number, .. } => reader.number(number),
        _ => Err(Stop::Differs {
            what: "no effect of a write checkpoint",
        }),
    }
}
