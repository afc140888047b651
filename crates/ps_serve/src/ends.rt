/// How a connection ended.
#[derive(Clone, Copy, Debug, PartialEq, Eq)]
pub enum End {
    /// All of an answer with status 200 was written.
    Answered,
    /// The head of a refusal was written: its status is from 400 to 422.
    Refused,
    /// A stream showed all that will ever be.
    Drained,
    /// The token was not accepted any more before a further checkpoint was taken.
    Expired {
        /// The second at which the clock was looked at, counted from the beginning of 1970.
        moment: u64,
    },
    /// A write failed: the count of faults of what was written to rose.
    PeerGone,
    /// The input ended or failed inside the request. Nothing was written.
    CutRequest,
    /// At a checkpoint that was not the stream's first the asker had more buckets than the limit.
    TooMany {
        /// How many the asker had.
        count: u64,
    },
    /// Out of memory.
    Memory,
}
