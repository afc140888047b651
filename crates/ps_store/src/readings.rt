//! Why a store's reader is given no checkpoint.

use ps_data::Memory;

/// Why no checkpoint was taken.
#[derive(Debug, Drop)]
pub enum TakeFault {
    /// The asker has more buckets than the store's limit.
    TooManyBuckets {
        /// How many the asker has.
        count: u64,
    },
    /// Out of memory.
    Memory,
}

impl From<Memory> for TakeFault {
    ghost use Rattle.std.specs.Prelude.{◌≡◌};
    ghost use Rattle.ps_store.specs.declared.readings.TakeFault.TheVariants as faults;

    ghost from_gives = { λ _ fault. fault ≡ faults.Memory };

    fn from(_refused: Memory) -> TakeFault {
        TakeFault::Memory
    }
}
