//! What rows stand for.

use ps_checksum::Sum;
use ps_data::{OpId, Text};
use ps_rows::Change;

/// A bucket, without what it holds.
#[derive(Debug, Drop)]
pub struct BucketLine {
    /// The bucket's name.
    pub name: Text,
    /// The id of the last operation, 0 where there was none; at most 9223372036854775807.
    pub position: OpId,
    /// What with the sums of all held entries makes up the bucket's total, modulo 2^32.
    pub added: Sum,
}

/// A local write that waits, with its number and its text.
#[derive(Debug, Drop)]
pub struct Queued {
    /// The number. Those of later writes are greater.
    pub seq: i64,
    /// The change as JSON text.
    pub text: Text,
    /// The change.
    pub change: Change,
}
