//! How serving connections ended.

/// Why no further connection was taken.
#[derive(Clone, Copy, Debug, PartialEq, Eq)]
pub enum Stop {
    /// None is to come any more.
    NoneToCome,
    /// As many were taken as were wanted.
    Most,
    /// Out of memory: there was no room for one worker more.
    NoRoom,
    /// The doors failed: their count of faults rose.
    Failed,
}

/// How serving connections ended.
#[derive(Clone, Copy, Debug, PartialEq, Eq)]
pub struct Ended {
    /// Why no further connection was taken.
    pub stop: Stop,
    /// How many were.
    pub connections: u64,
    /// Whether one of them ended for out of memory.
    pub out_of_memory: bool,
}
