//! A law of the lines that are read.

ghost use Rattle.ps_lines.specs.Laws.{LinesReadCanBeWritten};

use ps_values::decimals_read_back;

/// A law: a line that was read can be written, unless it is of a kind that is not known here.
pub fn lines_read_can_be_written()
    ensures { LinesReadCanBeWritten }
{
    decimals_read_back();
}
