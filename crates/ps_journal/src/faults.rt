//! Why a disk was not read, a journal not opened, or a record not appended.
use ps_data::Memory;
use ps_io::Failed;
use std::alloc::{AllocError, AllocFailed};

/// Why a disk was not read.
#[derive(Clone, Copy, Debug, PartialEq, Eq)]
pub enum DiskFault {
    /// The disk failed: its count of faults rose in this call.
    Failed,
    /// The disk has more bytes than the limit.
    TooLong {
        /// How many bytes were seen, more than the limit.
        seen: u64,
    },
    /// Out of memory.
    Memory,
}

/// Why a journal was not opened.
#[derive(Clone, Copy, Debug, PartialEq, Eq)]
pub enum OpenFault {
    /// What stands on the disk is no journal.
    NotJournal,
    /// A gate is open, and no whole record stands behind it.
    Damaged {
        /// The place of that gate.
        at: u64,
    },
    /// The disk has more bytes than a journal may have.
    TooLong {
        /// How many bytes were seen.
        seen: u64,
    },
    /// The disk failed: its count of faults rose in this call.
    Failed,
    /// Out of memory.
    Memory,
}

/// Why a record was not appended.
#[derive(Clone, Copy, Debug, PartialEq, Eq)]
pub enum AppendFault {
    /// The journal would be longer than it may be.
    KeepFull {
        /// How long it would be, up to and with its closed gate.
        bytes: u64,
    },
    /// The disk failed: its count of faults rose in this call.
    KeepFailed,
    /// Out of memory.
    Memory,
}

impl From<Memory> for DiskFault {
    ghost use Rattle.std.specs.Prelude.{◌≡◌};
    ghost use Rattle.ps_journal.specs.declared.faults.DiskFault.TheVariants as faults;

    ghost from_gives = { λ _ fault. fault ≡ faults.Memory };

    fn from(_refused: Memory) -> DiskFault {
        DiskFault::Memory
    }
}

impl From<AllocError> for DiskFault {
    ghost use Rattle.std.specs.Prelude.{◌≡◌};
    ghost use Rattle.ps_journal.specs.declared.faults.DiskFault.TheVariants as faults;

    ghost from_gives = { λ _ fault. fault ≡ faults.Memory };

    fn from(_refused: AllocError) -> DiskFault {
        DiskFault::Memory
    }
}

impl<T: Drop> From<AllocFailed<T>> for DiskFault {
    ghost use Rattle.std.specs.Prelude.{◌≡◌};
    ghost use Rattle.ps_journal.specs.declared.faults.DiskFault.TheVariants as faults;

    ghost from_gives = { λ _ fault. fault ≡ faults.Memory };

    fn from(_refused: AllocFailed<T>) -> DiskFault {
        DiskFault::Memory
    }
}

impl From<Memory> for OpenFault {
    ghost use Rattle.std.specs.Prelude.{◌≡◌};
    ghost use Rattle.ps_journal.specs.declared.faults.OpenFault.TheVariants as faults;

    ghost from_gives = { λ _ fault. fault ≡ faults.Memory };

    fn from(_refused: Memory) -> OpenFault {
        OpenFault::Memory
    }
}

impl From<AllocError> for OpenFault {
    ghost use Rattle.std.specs.Prelude.{◌≡◌};
    ghost use Rattle.ps_journal.specs.declared.faults.OpenFault.TheVariants as faults;

    ghost from_gives = { λ _ fault. fault ≡ faults.Memory };

    fn from(_refused: AllocError) -> OpenFault {
        OpenFault::Memory
    }
}

impl<T: Drop> From<AllocFailed<T>> for OpenFault {
    ghost use Rattle.std.specs.Prelude.{◌≡◌};
    ghost use Rattle.ps_journal.specs.declared.faults.OpenFault.TheVariants as faults;

    ghost from_gives = { λ _ fault. fault ≡ faults.Memory };

    fn from(_refused: AllocFailed<T>) -> OpenFault {
        OpenFault::Memory
    }
}

impl From<Memory> for AppendFault {
    ghost use Rattle.std.specs.Prelude.{◌≡◌};
    ghost use Rattle.ps_journal.specs.declared.faults.AppendFault.TheVariants as faults;

    ghost from_gives = { λ _ fault. fault ≡ faults.Memory };

    fn from(_refused: Memory) -> AppendFault {
        AppendFault::Memory
    }
}

impl From<AllocError> for AppendFault {
    ghost use Rattle.std.specs.Prelude.{◌≡◌};
    ghost use Rattle.ps_journal.specs.declared.faults.AppendFault.TheVariants as faults;

    ghost from_gives = { λ _ fault. fault ≡ faults.Memory };

    fn from(_refused: AllocError) -> AppendFault {
        AppendFault::Memory
    }
}

impl<T: Drop> From<AllocFailed<T>> for AppendFault {
    ghost use Rattle.std.specs.Prelude.{◌≡◌};
    ghost use Rattle.ps_journal.specs.declared.faults.AppendFault.TheVariants as faults;

    ghost from_gives = { λ _ fault. fault ≡ faults.Memory };

    fn from(_refused: AllocFailed<T>) -> AppendFault {
        AppendFault::Memory
    }
}

impl From<Failed> for OpenFault {
    ghost use Rattle.std.specs.Prelude.{◌≡◌};
    ghost use Rattle.ps_journal.specs.declared.faults.OpenFault.TheVariants as faults;

    ghost from_gives = { λ _ fault. fault ≡ faults.Failed };

    fn from(_failed: Failed) -> OpenFault {
        OpenFault::Failed
    }
}

impl From<Failed> for AppendFault {
    ghost use Rattle.std.specs.Prelude.{◌≡◌};
    ghost use Rattle.ps_journal.specs.declared.faults.AppendFault.TheVariants as faults;

    ghost from_gives = { λ _ fault. fault ≡ faults.KeepFailed };

    fn from(_failed: Failed) -> AppendFault {
        AppendFault::KeepFailed
    }
}

impl From<DiskFault> for OpenFault {
    ghost use Rattle.std.specs.Prelude.{◌≡◌};
    ghost use Rattle.ps_journal.specs.Opening.{open_fault_of};

    ghost from_gives = { λ fault made. made ≡ open_fault_of fault };

    fn from(fault: DiskFault) -> OpenFault {
        match fault {
            DiskFault::Failed => OpenFault::Failed,
            DiskFault::TooLong { seen } => OpenFault::TooLong { seen },
            DiskFault::Memory => OpenFault::Memory,
        }
    }
}
