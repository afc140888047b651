//! The law of first copies. It is the contract of a function that does nothing.

ghost use Rattle.ps_snapshot.specs.Laws.{FirstCopiesAreWhole};

/// A law: let any rows stand before the first line, and let each chunk have the rows of its range as they stood at one position from its `from`
/// up to its own, over the change lines before it. Then from the end mark on, at each position, what is fed has for the listed tables exactly
/// those rows changed by all change lines up to there.
pub fn first_copies_are_whole()
    ensures { FirstCopiesAreWhole }
{}
