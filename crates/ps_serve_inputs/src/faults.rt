//! Why `serve` ended otherwise than well.

use ps_data::Memory;
use ps_files::Fault;

/// Why `serve` ended otherwise than well: docs/FORMATS.md, "Fault texts".
#[derive(Debug, Drop)]
pub enum ServeFault<'a> {
    /// What other commands may end with too.
    Plain {
        /// The fault.
        fault: Fault<'a>,
    },
    /// The faults of the doors rose.
    ConnectionFailed,
}

impl<'a> From<Fault<'a>> for ServeFault<'a> {
    ghost use Rattle.std.specs.Prelude.{◌≡◌};
    ghost use Rattle.ps_serve_inputs.specs.declared.faults.ServeFault.TheVariants as faults;

    ghost from_gives = { λ fault gives. gives ≡ faults.Plain fault };

    fn from(fault: Fault<'a>) -> ServeFault<'a> {
        ServeFault::Plain { fault }
    }
}

impl<'a> From<Memory> for ServeFault<'a> {
    ghost use Rattle.std.specs.Prelude.{◌≡◌};
    ghost use Rattle.ps_files.specs.declared.faults.Fault.TheVariants as plain;
    ghost use Rattle.ps_serve_inputs.specs.declared.faults.ServeFault.TheVariants as faults;

    ghost from_gives = { λ _ gives. gives ≡ faults.Plain plain.Memory };

    fn from(_refused: Memory) -> ServeFault<'a> {
        ServeFault::Plain {
            fault: Fault::Memory,
        }
    }
}
