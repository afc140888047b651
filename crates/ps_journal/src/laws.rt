//! Laws: each is the contract of a function without a body.
ghost use Rattle.ps_journal.specs.Laws.{KeepingIsLeaving, OpensOneWay, ReopensSafely};

/// A content is opened in one way, where no disk fails and memory is there: with its records, or as no journal, or as too long, or as damaged at one place.
/// Two of these never apply together.
pub fn content_opens_one_way()
    ensures { OpensOneWay }
{}

/// At each moment of `Journal::open` a crash leaves what reads as the records that a crash before it left.
pub fn reopening_is_safe()
    ensures { ReopensSafely }
{}

/// A crash now leaves what reads as the records that are kept, and after them at most one that failed or was taken back.
pub fn what_is_kept_is_left()
    ensures { KeepingIsLeaving }
{}
