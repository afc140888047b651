//! What a column of a row has.

use ps_data::Text;

/// What a column of a row has.
#[derive(Debug, Drop, PartialEq, Eq)]
pub enum Cell {
    /// A number.
    Int(i64),
    /// A text, in UTF-8.
    Text(Text),
    /// Anything else.
    Other,
}
