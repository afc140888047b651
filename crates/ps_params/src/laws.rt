//! The law of the notes of changes, as the contract of a function that does nothing.

ghost use Rattle.ps_params.specs.Laws.{NotesAreTheSource, NotesReadAreTheSource};

/// A law: by one note for each change of transactions, in order and at their positions, the rows of the tables that are read
/// stand at each position as they stand in the source there. The notes of other tables may be left out.
pub fn notes_of_changes_are_the_source()
    ensures every { NotesAreTheSource }
    ensures read { NotesReadAreTheSource }
{}
