//! How workers end.

use ps_data::OpId;

/// How a writer or a compactor ended.
#[derive(Clone, Copy, Debug, PartialEq, Eq)]
pub enum WorkEnd {
    /// The feed is closed, all is written and committed, and no generation is being built.
    Drained,
    /// A transaction of the writer's could not be fed, or the compactor's bell was closed and the store was not drained then.
    Stopped,
    /// The row of the next unwritten change, or of the next change that is to be built, has more entries than the store's limit.
    TooWide {
        /// One more than the limit: no entry past it was counted.
        count: u32,
    },
    /// The next unwritten change, the next change that is to be built, or a switch needs more ids than are left up to the store's limit.
    OpsFull {
        /// The last id that was given, 0 where none.
        last: OpId,
    },
    /// Out of memory.
    Memory,
}
