//! Lines that may be written.

ghost use Rattle.std.specs.Prelude.{◌≡◌};
ghost use Rattle.ps_lines.specs.Writing.{IsWritable};

use ps_lines::Line;
use std::marker::Model;

/// A line that may be written: it is of a known kind, and nothing stands in it that its reader refuses.
#[derive(Drop)]
pub struct WritableLine {
    line: Line,
}

impl Model for WritableLine {
    ghost use Rattle.ps_lines.specs.declared.lines.Line.{Line as SeenLine};
    ghost use Rattle.ps_lines.specs.Writing.{IsWritable as MayBeWritten};

    ghost Value = { SeenLine };

    ghost view = { λ writable. writable.line };

    ghost invariant = { λ writable. MayBeWritten writable.line };
}

impl WritableLine {
    /// A line that may be written.
    pub fn new(line: Line) -> WritableLine
        requires { IsWritable line }
        ensures { result ≡ line }
    {
        WritableLine { line }
    }

    /// The line.
    pub fn line(&self) -> &Line
        ensures line { result.now ≡ self.now }
        ensures writable { IsWritable result.now }
    {
        &self.line
    }
}
