//! The lines of a first copy, as data.

use ps_data::{Items, Position, Text};
use ps_rows::{Row, Transaction};

/// A row as a first copy found it.
#[derive(Debug, Drop)]
pub struct CopiedRow {
    /// Its id in its table.
    pub id: Text,
    /// Its columns.
    pub row: Row,
}

/// The rows of a table in a range of ids, as they stood at one position from `from` up to the chunk's own, which is excluded.
#[derive(Debug, Drop)]
pub struct Chunk {
    /// The position of its line.
    pub position: Position,
    /// The table.
    pub table: Text,
    /// The id that all of its ids are above; None where it begins with the first id.
    pub after: Option<Text>,
    /// The greatest id that it may have; None where it has all that are left.
    pub upto: Option<Text>,
    /// The least position at which the rows may have stood so.
    pub from: Position,
    /// The rows, in the order of their ids.
    pub rows: Items<CopiedRow>,
}

/// A line of a first copy.
#[derive(Debug, Drop)]
pub enum Line {
    /// The first copy begins.
    Begin {
        /// The position of the line.
        position: Position,
        /// The tables that are copied.
        tables: Items<Text>,
    },
    /// Rows were copied.
    Rows {
        /// The rows, and where they lie.
        chunk: Chunk,
    },
    /// The first copy ends.
    End {
        /// The position of the line.
        position: Position,
    },
    /// The source changed.
    Changes {
        /// The change line's transaction.
        transaction: Transaction,
    },
}
