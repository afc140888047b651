//! The rows of the tables, as they are read.

use crate::Cell;
use ps_data::Items;

/// The rows of the five tables, each table's in the order of its primary key.
#[derive(Debug, Drop)]
pub struct Rows {
    /// The buckets: name, position, added sum.
    pub buckets: Items<Items<Cell>>,
    /// The held entries: bucket, kind, id, subkey, operation's id, data, sum.
    pub entries: Items<Items<Cell>>,
    /// The local writes that wait: number, change.
    pub queue: Items<Items<Cell>>,
    /// The target: 1, kind, number.
    pub aim: Items<Items<Cell>>,
    /// The shown rows: kind, id, data.
    pub shown: Items<Items<Cell>>,
}
