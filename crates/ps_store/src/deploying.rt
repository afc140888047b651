//! What the calls for new rules answer.

use ps_data::{Memory, OpId, Text};

/// What a batch of a generation that is being built did.
#[derive(Clone, Copy, Debug)]
pub struct Built {
    /// How many changes of the queue were taken, from 1 to the limit that was given.
    pub changes: u32,
    /// How many operations they made.
    pub ops: u32,
    /// The last id given so far to anything.
    pub last_op: OpId,
    /// How many changes are left in the queue.
    pub left: u64,
}

/// Why no generation was begun.
#[derive(Clone, Copy, Debug, PartialEq, Eq)]
pub enum DeployFault {
    /// One is being built.
    Building {
        /// Its number.
        generation: u32,
    },
    /// The last number that was ever begun is the store's limit.
    GenerationFull {
        /// That number.
        last: u32,
    },
    /// Out of memory.
    Memory,
}

impl From<Memory> for DeployFault {
    ghost use Rattle.std.specs.Prelude.{◌≡◌};
    ghost use Rattle.ps_store.specs.declared.deploying.DeployFault.TheVariants as faults;

    ghost from_gives = { λ _ fault. fault ≡ faults.Memory };

    fn from(_refused: Memory) -> DeployFault {
        DeployFault::Memory
    }
}

/// Why no change was taken by the generation that is being built.
#[derive(Debug, Drop)]
pub enum BuildFault {
    /// None is being built.
    NothingBuilding,
    /// Its queue is empty.
    NothingToBuild,
    /// The row of the queue's next change has more entries, by the new rules, than the store's limit.
    TooWide {
        /// The row's table.
        table: Text,
        /// The row's id.
        id: Text,
        /// One more than the limit: no entry past it was counted.
        count: u32,
    },
    /// The queue's next change needs more ids than are left up to the store's limit.
    OpsFull {
        /// The last id that was given to anything, 0 where none.
        last: OpId,
    },
    /// Out of memory.
    Memory,
}

impl From<Memory> for BuildFault {
    ghost use Rattle.std.specs.Prelude.{◌≡◌};
    ghost use Rattle.ps_store.specs.declared.deploying.BuildFault.TheVariants as faults;

    ghost from_gives = { λ _ fault. fault ≡ faults.Memory };

    fn from(_refused: Memory) -> BuildFault {
        BuildFault::Memory
    }
}

/// Why no generation came into force.
#[derive(Clone, Copy, Debug)]
pub enum SwitchFault {
    /// None is being built.
    NothingBuilding,
    /// Its queue is not empty.
    NotBuilt {
        /// How many changes are left in it.
        left: u64,
    },
    /// A transaction is written in part.
    HalfWritten {
        /// How many of its changes are written.
        changes: u64,
    },
    /// No id is left up to the store's limit.
    OpsFull {
        /// The last id that was given to anything.
        last: OpId,
    },
}

/// No generation is being built.
#[derive(Clone, Copy, Debug)]
pub struct NothingBuilding;
