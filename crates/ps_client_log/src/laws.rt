//! The laws of what a client keeps. Each is the contract of a function that does nothing.

ghost use Rattle.ps_client_log.specs.Laws.{EditKeepsSound, EditsKeepSound};

/// A law: an edit that can be made leaves what is sound, and so do edits that can be made one after another.
pub fn edits_leave_what_is_sound()
    ensures one { EditKeepsSound }
    ensures all { EditsKeepSound }
{}
