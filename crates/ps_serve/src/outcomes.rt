//! What came of a connection.

use crate::ends::End;
use ps_data::{Items, OpId, Position};

/// A checkpoint that a stream took, and told in a line.
#[derive(Clone, Copy, Debug, PartialEq, Eq)]
pub struct Served {
    /// How many events the history had where it was taken.
    pub place: u64,
    /// The checkpoint's position.
    pub position: Position,
    /// The checkpoint's op.
    pub last_op: OpId,
    /// Whether the line that completes it was written.
    pub completed: bool,
}

/// What came of a connection.
#[derive(Drop)]
pub struct Outcome {
    /// The status of the answer, 0 where no write of a head was tried.
    pub status: u16,
    /// How the connection ended.
    pub end: End,
    /// The checkpoints of a stream, in order: one for each take that gave a line.
    pub served: Items<Served>,
}
