//! What a disk tells of itself.
use ps_data::Items;

/// Bytes of a disk that were written: so many from a place on.
#[derive(Clone, Copy, Debug, PartialEq, Eq)]
pub struct Span {
    /// Where they begin.
    pub at: u64,
    /// How many they are.
    pub count: u64,
}

/// A moment between two calls of a disk, or in one: what stood there when a sync last succeeded, and what was written since.
#[derive(Debug, Drop)]
pub struct Moment {
    /// The bytes that stood on the disk when a sync last succeeded.
    pub sure: Items<u8>,
    /// What was written since, in this order.
    pub spans: Items<Span>,
}

/// What a disk tells: what a read gives, the moment now, and each moment that was before it.
#[derive(Debug, Drop)]
pub struct Told {
    /// What a read gives.
    pub content: Items<u8>,
    /// The moment now.
    pub now: Moment,
    /// The moments before, in their order.
    pub past: Items<Moment>,
}
