//! A law of meters. It is the contract of a function that does nothing.

ghost use Rattle.ps_progress.specs.Meters.{OffTellsNothing};

/// A law: a meter that is off stays as it is whatever it hears, and its sink takes nothing.
pub fn meters_that_are_off_tell_nothing()
    ensures { OffTellsNothing }
{}
