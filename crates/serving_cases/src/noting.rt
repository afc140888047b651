//! Doors of whose connections the sinks note for each other what they took.

ghost use Rattle.std.specs.Prelude.{◌≡◌, None, IfOk};

use ps_data::{Items, Memory, Text};
use ps_doors::Doors;
use ps_io::{Failed, MemorySource, Sink, Source};
use std::alloc::Global;
use std::str;
use std::sync::atomic::{AtomicU64, Ordering};

// How often a note is looked at that does not come.
const LOOKS: u64 = 1000000000;

/// What the sinks of a service's connections note.
#[derive(Drop)]
pub struct Notes {
    // How many of them have ended.
    ended: AtomicU64,
    // How many have taken the line that completes the tenth operation.
    completed: AtomicU64,
    // How many lines with a MOVE they have taken.
    moved: AtomicU64,
}

// Whether bytes have a text within.
fn has(bytes: &[u8], part: &str) -> bool {
    match str::from_utf8(bytes) {
        Ok(text) => text.contains(part),
        Err(_) => false,
    }
}

// Looks at a note until it has come to a number.
fn comes_to(note: &AtomicU64, number: u64) -> bool {
    'looks: for _ in 0..LOOKS {
        if note.load(Ordering::SeqCst) >= number {
            return true;
        }
    }
    false
}

impl Notes {
    /// Nothing was noted.
    pub fn new() -> Notes {
        Notes {
            ended: AtomicU64::new(0),
            completed: AtomicU64::new(0),
            moved: AtomicU64::new(0),
        }
    }

    /// How many sinks have taken the line that completes the tenth operation.
    pub fn completed(&self) -> u64 {
        self.completed.load(Ordering::SeqCst)
    }

    /// Whether one has taken a MOVE.
    pub fn has_moved(&self) -> bool {
        self.moved.load(Ordering::SeqCst) > 0
    }

    // Notes what was taken.
    fn note(&self, bytes: &[u8]) {
        if has(bytes, "\"op\":\"MOVE\"") {
            self.moved.fetch_add(1, Ordering::SeqCst);
        }
        if has(bytes, "{\"checkpoint_complete\":{\"last_op_id\":\"10\"") {
            self.completed.fetch_add(1, Ordering::SeqCst);
        }
    }
}

/// A sink that notes what it takes. One that waits looks for another's completion before it takes anything, and fails without it.
#[derive(Drop)]
pub struct NotingSink<'n> {
    notes: &'n Notes,
    waits: bool,
    faults: u64,
    number: u64,
}

impl<'n> Sink for NotingSink<'n> {
    ghost taken = { λ _. None };

    ghost faults = { λ sink. sink.faults };

    ghost number = { λ sink. sink.number };

    fn write(&mut self, bytes: &[u8]) -> Result<(), Failed> {
        if self.waits {
            self.waits = false;
            if !comes_to(&self.notes.completed, 1) {
                self.faults = self.faults.saturating_add(1);
                return Err(Failed);
            }
        }
        self.notes.note(bytes);
        Ok(())
    }

    fn write_faults(&self) -> u64 {
        self.faults
    }

    fn end(&mut self) {
        self.notes.ended.fetch_add(1, Ordering::SeqCst);
    }
}

/// How the connections of doors come.
#[derive(Clone, Copy, Debug, PartialEq, Eq)]
pub enum Coming {
    /// Each once the one before it has ended, until one has taken a MOVE, and at most so many.
    OneByOne {
        /// How many come at most.
        most: u64,
    },
    /// Two, of which the first waits for the second.
    Two,
}

/// Doors of whose connections each sends the same request.
#[derive(Drop)]
pub struct NotingDoors<'n> {
    alloc: Global,
    notes: &'n Notes,
    request: &'n [u8],
    coming: Coming,
    opened: u64,
    faults: u64,
}

impl<'n> NotingDoors<'n> {
    /// Doors that have handed out nothing.
    pub fn new(
        alloc: Global,
        notes: &'n Notes,
        request: &'n [u8],
        coming: Coming,
    ) -> NotingDoors<'n> {
        NotingDoors {
            alloc,
            notes,
            request,
            coming,
            opened: 0,
            faults: 0,
        }
    }

    // Whether a connection of that number comes.
    fn comes(&self, number: u64) -> bool {
        match self.coming {
            Coming::OneByOne { most } => {
                number < most && comes_to(&self.notes.ended, number) && !self.notes.has_moved()
            }
            Coming::Two => number < 2,
        }
    }

    // What its peer sends.
    fn source(&self, number: u64) -> Result<MemorySource, Memory>
        ensures faults { IfOk result (λ from. ⟦<MemorySource as Source>⟧.faults from ≡ 0) }
        ensures number { IfOk result (λ from. ⟦<MemorySource as Source>⟧.number from ≡ number) }
    {
        let content = Items::from_vec(Vec::from_slice(self.alloc, self.request)?);
        Ok(MemorySource::new(content, Items::new(self.alloc)).numbered(number))
    }
}

impl<'n> Doors for NotingDoors<'n> {
    type In = MemorySource;

    type Out = NotingSink<'n>;

    ghost opened = { λ doors. doors.opened };

    ghost coming = { λ _. None };

    ghost closed = { λ _. None };

    ghost faults = { λ doors. doors.faults };

    fn listen(&mut self, _address: &Text) -> Result<(), Failed> {
        Ok(())
    }

    fn next(&mut self) -> Result<Option<(MemorySource, NotingSink<'n>)>, Failed> {
        let number = self.opened;
        if number == u64::MAX || !self.comes(number) {
            return Ok(None);
        }
        let Ok(from) = self.source(number) else {
            self.faults = self.faults.saturating_add(1);
            return Err(Failed);
        };
        self.opened = number + 1;
        let to = NotingSink {
            notes: self.notes,
            waits: self.coming == Coming::Two && number == 0,
            faults: 0,
            number,
        };
        Ok(Some((from, to)))
    }

    fn close(&mut self, from: MemorySource, to: NotingSink<'n>) {
        drop(from);
        drop(to);
    }

    fn door_faults(&self) -> u64 {
        self.faults
    }
}
