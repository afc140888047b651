//! What is known of a client, beside the world.

use crate::stops::{Stop, expect};
use ps_data::{Memory, OpId, Position, Text};
use ps_rows::Change;
use ps_sql_eval::Asker;
use std::alloc::Global;
use std::collections::VecDeque;

/// A checkpoint that a line begins.
#[derive(Clone, Copy)]
pub struct Begun {
    /// Its position, which no line has.
    pub position: Position,
    /// The generation in force there.
    pub generation: u32,
    /// Its op.
    pub op: OpId,
    /// The number of a write checkpoint that it covers, 0 where there is none.
    pub number: u64,
}

// A line that a session made.
#[derive(Clone, Copy)]
enum Sent {
    Beginning { begun: Begun },
    Further,
}

/// A client, and what was done by it.
#[derive(Drop)]
pub struct Reader {
    /// Its name.
    pub name: &'static str,
    /// Who asks by it.
    pub asker: Asker,
    /// Whether it has a stream.
    pub is_open: bool,
    // Whether its session has begun a checkpoint, and neither completed it nor given it up.
    is_under_way: bool,
    // The lines that its session made and it has not taken.
    sent: VecDeque<Sent>,
    // The checkpoint that the last line began that it took and that began one.
    begun: Option<Begun>,
    // Whether it ever wrote locally.
    wrote: bool,
    // Its local writes that are not uploaded.
    queue: VecDeque<Change>,
    // The position of its last upload, 0 where there is none.
    uploaded: Position,
    // For each of its write checkpoints, the position of its last upload before it.
    numbered: Vec<Position>,
}

fn asker(alloc: Global, user: &str, client: Option<Text>) -> Result<Asker, Memory> {
    Ok(Asker {
        user: Text::from_str(alloc, user)?,
        payload: Text::from_string(format!(in alloc; "{{\"sub\":\"{user}\"}}")?),
        parameters: Text::from_str(alloc, "{}")?,
        client,
    })
}

impl Reader {
    /// A client by which nothing was done.
    pub fn new(
        alloc: Global,
        name: &'static str,
        user: &str,
        client: Option<Text>,
    ) -> Result<Reader, Memory> {
        let asker = asker(alloc, user, client)?;
        Ok(Reader {
            name,
            asker,
            is_open: false,
            is_under_way: false,
            sent: VecDeque::new(alloc),
            begun: None,
            wrote: false,
            queue: VecDeque::new(alloc),
            uploaded: Position(0),
            numbered: Vec::new(alloc),
        })
    }

    /// A stream began.
    pub fn open(&mut self) {
        self.is_open = true;
        self.is_under_way = false;
        self.sent.clear();
        self.begun = None;
    }

    /// The stream was cut.
    pub fn cut(&mut self) {
        self.is_open = false;
        self.sent.clear();
    }

    /// The session began a checkpoint. Whether it gave up an earlier one.
    pub fn begin(&mut self, begun: Begun) -> Result<bool, Stop> {
        let gave_up = self.is_under_way;
        self.is_under_way = true;
        self.sent.push_back(Sent::Beginning { begun })?;
        Ok(gave_up)
    }

    /// The session made a line that begins no checkpoint.
    pub fn go_on(&mut self) -> Result<(), Stop> {
        Ok(self.sent.push_back(Sent::Further)?)
    }

    /// The session completed a checkpoint.
    pub fn complete(&mut self) -> Result<(), Stop> {
        self.is_under_way = false;
        self.go_on()
    }

    /// The client took its oldest line.
    pub fn take(&mut self) -> Result<(), Stop> {
        match self.sent.pop_front() {
            Some(Sent::Beginning { begun }) => self.begun = Some(begun),
            Some(Sent::Further) => (),
            None => expect(false, "took a line that was not made")?,
        }
        Ok(())
    }

    /// No line is left to be taken.
    pub fn has_none(&self) -> Result<(), Stop> {
        expect(self.sent.is_empty(), "took no line, and there is one")
    }

    /// The client wrote locally.
    pub fn write(&mut self, change: Change) -> Result<(), Stop> {
        self.wrote = true;
        Ok(self.queue.push_back(change)?)
    }

    /// A checkpoint may be held from the client: it wrote locally, or waits for a write checkpoint.
    pub fn may_wait(&self) -> Result<(), Stop> {
        expect(
            self.wrote || !self.numbered.is_empty(),
            "a checkpoint is held, and the client waits for none",
        )
    }

    /// The client's oldest local write was uploaded, at a position.
    pub fn upload(&mut self, position: Position) -> Result<Change, Stop> {
        self.uploaded = position;
        match self.queue.pop_front() {
            Some(change) => Ok(change),
            None => Err(Stop::Differs {
                what: "uploaded what was not written",
            }),
        }
    }

    /// No local write waits.
    pub fn waits_for_none(&self) -> Result<(), Stop> {
        expect(self.queue.is_empty(), "a local write waits")
    }

    /// A write checkpoint was made.
    pub fn number(&mut self, number: u64) -> Result<(), Stop> {
        let uploaded = self.uploaded;
        self.numbered.push(uploaded)?;
        expect(
            number == self.numbered.len() as u64,
            "the number is not the next one",
        )
    }

    // Whether the uploads before the write checkpoints up to a number stand at positions up to one.
    fn covers(&self, number: u64, position: Position) -> bool {
        'numbers: for (before, uploaded) in self.numbered.as_slice().iter().enumerate() {
            if (before as u64) < number && position.0 < uploaded.0 {
                return false;
            }
        }
        true
    }

    /// The checkpoint that the client applied, which is the one that it took, has its op, and covers its own uploads.
    pub fn applied(&self, op: OpId) -> Result<Begun, Stop> {
        self.waits_for_none()?;
        match self.begun {
            Some(begun) => {
                expect(begun.op.0 == op.0, "applied another checkpoint")?;
                expect(
                    self.covers(begun.number, begun.position),
                    "an own upload is missing",
                )?;
                Ok(begun)
            }
            None => Err(Stop::Differs {
                what: "applied no checkpoint",
            }),
        }
    }
}
