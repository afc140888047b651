//! A sink that leads nowhere.

ghost use Rattle.std.specs.Prelude.{None};

use ps_io::{Failed, Sink};

/// A sink that leads nowhere: what it takes is lost, and it never fails.
#[derive(Clone, Copy, Debug, PartialEq, Eq)]
pub struct Nowhere;

impl Sink for Nowhere {
    ghost taken = { λ _. None };

    ghost faults = { λ _. 0 };

    ghost number = { λ _. 0 };

    fn write(&mut self, _bytes: &[u8]) -> Result<(), Failed> {
        Ok(())
    }

    fn write_faults(&self) -> u64 {
        0
    }
}
