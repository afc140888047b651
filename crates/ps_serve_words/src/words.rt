//! What the words of `serve` say.

use ps_data::Text;

/// What the words of `serve` say: docs/FORMATS.md, "Commands". Each number but `next_after` is from 1 to 1,000,000.
#[derive(Debug, Drop)]
pub struct ServeWords {
    /// The name of the rules file.
    pub rules: Text,
    /// The name of the change file.
    pub changes: Text,
    /// The name of the key file.
    pub keys: Text,
    /// The address to listen at, a host and a port.
    pub listen: Text,
    /// After how many connections none is taken any more; none where the doors decide.
    pub connections: Option<u32>,
    /// Whether the feed is closed behind the change file, and each stream ends where it has all.
    pub until_drained: bool,
    /// How many changes are written in one turn at most.
    pub batch: u32,
    /// How many operations a bucket gets until it is compacted again.
    pub compact_at: u32,
    /// The name of the file of the rules that come next; none where the rules stay.
    pub next: Option<Text>,
    /// Once how many transactions are committed the next rules are deployed, from 0 to 9223372036854775807. Without next rules it says nothing.
    pub next_after: u64,
}
