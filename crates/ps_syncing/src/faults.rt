//! Why a client was not brought up to date.

use ps_data::Memory;
use std::alloc::{AllocError, AllocFailed};

/// Why a client was not brought up to date: docs/FORMATS.md, "Fault texts".
#[derive(Clone, Copy, Debug, PartialEq, Eq)]
pub enum SyncFault {
    /// The faults of the link, of a connection or of the client's keeper rose.
    ConnectionFailed,
    /// A stream ended with no checkpoint applied or refused, or an answer is not of its form.
    NoCheckpoint,
    /// The service answered with another status than 200.
    Answered {
        /// That status, of three digits.
        status: u16,
    },
    /// Eight streams were refused, or a line of a stream is none or does not come next.
    Altered,
    /// A line of a stream is longer than a line may be.
    LineTooLong {
        /// How many bytes of it were seen.
        seen: u64,
    },
    /// Out of memory.
    Memory,
}

impl From<Memory> for SyncFault {
    ghost use Rattle.std.specs.Prelude.{◌≡◌};
    ghost use Rattle.ps_syncing.specs.declared.faults.SyncFault.TheVariants as faults;

    ghost from_gives = { λ _ fault. fault ≡ faults.Memory };

    fn from(_refused: Memory) -> SyncFault {
        SyncFault::Memory
    }
}

impl From<AllocError> for SyncFault {
    ghost use Rattle.std.specs.Prelude.{◌≡◌};
    ghost use Rattle.ps_syncing.specs.declared.faults.SyncFault.TheVariants as faults;

    ghost from_gives = { λ _ fault. fault ≡ faults.Memory };

    fn from(_refused: AllocError) -> SyncFault {
        SyncFault::Memory
    }
}

impl<T: Drop> From<AllocFailed<T>> for SyncFault {
    ghost use Rattle.std.specs.Prelude.{◌≡◌};
    ghost use Rattle.ps_syncing.specs.declared.faults.SyncFault.TheVariants as faults;

    ghost from_gives = { λ _ fault. fault ≡ faults.Memory };

    fn from(_refused: AllocFailed<T>) -> SyncFault {
        SyncFault::Memory
    }
}
