//! What a session's turn makes.

ghost use Rattle.std.specs.Prelude.{◌≡◌, IfSome};
ghost use Rattle.ps_lines.specs.Writing.{IsWritable};
ghost use Rattle.ps_streams.specs.Turning.{IsWritableOutcome, line_in, outcome_of};

use ps_data::OpId;
use ps_lines::Line;

/// What a session's turn made.
#[derive(Debug, Drop)]
pub enum TurnOutcome {
    /// A line.
    Line {
        /// The line.
        line: Line,
    },
    /// No line: what was taken does not differ from the checkpoint that is completed.
    Nothing,
    /// No line: the log of the bucket that was read begins past what was asked for. The checkpoint is given up.
    Passed {
        /// The id of the CLEAR that the log begins with.
        op: OpId,
    },
}

impl TurnOutcome {
    /// The line, if one was made. Takes no memory.
    pub fn into_line(self) -> Option<Line>
        ensures line { result ≡ line_in self }
        ensures writable { IsWritableOutcome self → IfSome result IsWritable }
    {
        match self {
            TurnOutcome::Line { line } => Some(line),
            TurnOutcome::Nothing => None,
            TurnOutcome::Passed { op: _ } => None,
        }
    }
}

// What a turn made that gave this line, or read a batch that was passed by.
pub(crate) fn outcome_of(line: Option<Line>, passed: Option<OpId>) -> TurnOutcome
    ensures { result ≡ outcome_of line passed }
{
    match line {
        Some(line) => TurnOutcome::Line { line },
        None => match passed {
            Some(op) => TurnOutcome::Passed { op },
            None => TurnOutcome::Nothing,
        },
    }
}
