//! The lines of a script that are passed over.

ghost use Rattle.std.specs.Prelude.{◌≡◌};
ghost use Rattle.ps_script.specs.Lines.{is_skipped as is_skipped_line};

use ps_file_lines::is_blank;

/// Whether a line is passed over: it is blank, or begins with `#`.
pub fn is_skipped(line: &[u8]) -> bool
    ensures { result ≡ is_skipped_line line.now }
{
    is_blank(line) || line.first() == Some(&b'#')
}
