/// What a compaction did, in numbers of operations.
#[derive(Clone, Copy, Debug, PartialEq, Eq)]
pub struct Report {
    /// Those that became a MOVE, also where a CLEAR then took their place.
    pub moved: u64,
    /// Those that the CLEAR took the place of.
    pub cleared: u64,
    /// Those of the whole log before.
    pub before: u64,
    /// Those of the whole log after.
    pub after: u64,
}
