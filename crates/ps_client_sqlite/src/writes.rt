//! Writes of single rows.

use ps_bucket_log::Key;
use ps_checksum::Sum;
use ps_client_log::{Held, Shown, Target};
use ps_data::{OpId, Text};

/// A write of one row, by its primary key.
#[derive(Debug, Drop)]
pub enum RowWrite {
    /// A bucket is written, in the place of the one with its name.
    PutBucket {
        /// Its name.
        name: Text,
        /// The id of its last operation, at most 9223372036854775807.
        position: OpId,
        /// What with the sums of all held entries makes up its total, modulo 2^32.
        added: Sum,
    },
    /// The bucket with this name goes. Its entries stay.
    DropBucket {
        /// Its name.
        name: Text,
    },
    /// An entry of a bucket is written, in the place of the one with its key.
    PutEntry {
        /// The bucket's name.
        bucket: Text,
        /// The entry. Its id is at most 9223372036854775807.
        held: Held,
    },
    /// The entry of a bucket with this key goes.
    DropEntry {
        /// The bucket's name.
        bucket: Text,
        /// The entry's key.
        key: Key,
    },
    /// A local write is written under its number, in the place of the one that has it.
    PutQueued {
        /// The number.
        seq: i64,
        /// The change as JSON text.
        text: Text,
    },
    /// The local write with this number goes.
    DropQueued {
        /// The number.
        seq: i64,
    },
    /// The target is written, in the place of the one before. Its number is at most 9223372036854775807.
    PutAim {
        /// The target.
        target: Target,
    },
    /// A shown row is written, in the place of the one of its kind and id.
    PutShown {
        /// The row.
        row: Shown,
    },
    /// The shown row of this kind and id goes.
    DropShown {
        /// The kind.
        kind: Text,
        /// The id.
        id: Text,
    },
}
