//! What a compactor knows of the buckets, outside of turns.

use ps_data::{Items, Memory, OpId, Text};
use std::alloc::Global;
use std::collections::BTreeMap;

/// How many operations the logs of buckets had after their last compactions.
#[derive(Drop)]
pub(crate) struct Levels {
    // By how many operations a log has to grow.
    at: u64,
    // Buckets that were not compacted are not among these.
    left: BTreeMap<Text, u64>,
}

impl Levels {
    /// Whether the log of a bucket has grown enough, by its length.
    pub(crate) fn has_grown(&self, name: &Text, length: u64) -> bool {
        let left = self.left.get(name).copied().unwrap_or(0);
        left.saturating_add(self.at) <= length
    }

    /// A bucket was compacted, and its log has so many operations left.
    pub(crate) fn note(&mut self, alloc: Global, name: &Text, left: u64) -> Result<(), Memory> {
        if let Some(noted) = self.left.get_mut(name) {
            *noted = left;
            return Ok(());
        }
        self.left.insert(name.copy(alloc)?, left)?;
        Ok(())
    }
}

/// What a compactor knows of the buckets.
#[derive(Drop)]
pub(crate) struct Buckets {
    /// The names that were read last.
    pub(crate) names: Items<Text>,
    /// How many buckets the store counted before they were read.
    pub(crate) counted: u64,
    /// The generation that was being built then, if one was.
    pub(crate) building: Option<u32>,
    /// The op of the last checkpoint after which was compacted what had grown.
    pub(crate) op: OpId,
    /// What was left of their logs.
    pub(crate) levels: Levels,
}

impl Buckets {
    /// Nothing is known, and a log is compacted where it has grown by `at` operations.
    pub(crate) fn new(alloc: Global, at: u64) -> Buckets {
        Buckets {
            names: Items::new(alloc),
            counted: 0,
            building: None,
            op: OpId(0),
            levels: Levels {
                at,
                left: BTreeMap::new(alloc),
            },
        }
    }
}
