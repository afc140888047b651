//! Why rows are no state.

ghost use Rattle.std.specs.Prelude.{◌≡◌};
ghost use Rattle.ps_client_lines.specs.Refusing.{fault_at};

use ps_data::Memory;
use std::alloc::{AllocError, AllocFailed};

/// Why rows are no state.
#[derive(Clone, Copy, Debug, PartialEq, Eq)]
pub enum RowsFault {
    /// A row of this table, counted from 1, is none of a state, and each row of the tables before it is one.
    BadState {
        /// The table: 1 buckets, 2 entries, 3 queue, 4 aim, 5 shown.
        table: u8,
    },
    /// Out of memory.
    Memory,
}

// Why the rows of one table are none of a state.
#[derive(Clone, Copy, Debug, PartialEq, Eq)]
pub enum Refusal {
    Bad,
    Memory,
}

impl From<Memory> for RowsFault {
    ghost use Rattle.ps_client_lines.specs.declared.faults.RowsFault.TheVariants as faults;

    ghost from_gives = { λ _ fault. fault ≡ faults.Memory };

    fn from(_refused: Memory) -> RowsFault {
        RowsFault::Memory
    }
}

impl From<Memory> for Refusal {
    ghost use Rattle.ps_client_lines.specs.declared.faults.Refusal.TheVariants as refusals;

    ghost from_gives = { λ _ fault. fault ≡ refusals.Memory };

    fn from(_refused: Memory) -> Refusal {
        Refusal::Memory
    }
}

impl From<AllocError> for Refusal {
    ghost use Rattle.ps_client_lines.specs.declared.faults.Refusal.TheVariants as refusals;

    ghost from_gives = { λ _ fault. fault ≡ refusals.Memory };

    fn from(_refused: AllocError) -> Refusal {
        Refusal::Memory
    }
}

impl<T: Drop> From<AllocFailed<T>> for Refusal {
    ghost use Rattle.ps_client_lines.specs.declared.faults.Refusal.TheVariants as refusals;

    ghost from_gives = { λ _ fault. fault ≡ refusals.Memory };

    fn from(_refused: AllocFailed<T>) -> Refusal {
        Refusal::Memory
    }
}

// What a refusal of the rows of a table is.
pub fn at_table(refusal: Refusal, table: u8) -> RowsFault
    ensures { result ≡ fault_at table refusal }
{
    match refusal {
        Refusal::Bad => RowsFault::BadState { table },
        Refusal::Memory => RowsFault::Memory,
    }
}
