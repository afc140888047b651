//! The law of rows of copies. It is the contract of a function that does nothing.

ghost use Rattle.ps_granted.specs.Laws.{LatestRowsAreUnique};

/// A law: rows that show of each object the data of a latest copy are those of `rows_of`, where copies of one object,
/// neither of which is later, have the same data.
pub fn latest_rows_are_unique()
    ensures { LatestRowsAreUnique }
{}
