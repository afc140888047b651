//! The laws of one bucket. Each is the contract of a function that does nothing.

ghost use Rattle.ps_bucket_log.specs.Laws.{LastDecides, NoneIsHeld, StaysHonest, StaysHonestUpTo, WholeAtNewest, FreshIsHonest, HonestLater, HonestAlike, AddsNothing, GrowsLater, StandsLater, StandsForItself, StandingIsLog, WithinLevel, SameSums, TotalIsSum, StandsAtNewest, StandsAfter, StaysWithin, NeedsNoTargets, RisesOn, TargetWithinLevel, BatchRises, ReadsLongestFront, BatchesAreTheLog, ReadsOn};

/// A law: of a key, the last PUT or REMOVE since the last CLEAR decides what a reader holds.
pub fn the_last_decides()
    ensures last { LastDecides }
    ensures none { NoneIsHeld }
{}

/// A law: a reader that is honest stays so over each batch of a standing log; one that is honest up to an
/// id stays that too, where the batch's target is no later than the id.
pub fn batches_keep_readers_honest()
    ensures honest { StaysHonest }
    ensures honest_up_to { StaysHonestUpTo }
{}

/// A law: a reader that has reached the newest operation up to an id, and is honest up to it, holds what
/// the original holds there, and has its total.
pub fn readers_are_whole_at_the_newest()
    ensures { WholeAtNewest }
{}

/// A law: a reader that begins afresh is honest, and who is honest stays so when more is written and committed.
/// Originals that are the same up to an id have the same honest readers up to it.
pub fn honest_readers_stay_honest()
    ensures afresh { FreshIsHonest }
    ensures later { HonestLater }
    ensures alike { HonestAlike }
{}

/// A law: what is written past an id adds nothing to what is up to it.
pub fn what_is_written_later_adds_nothing()
    ensures { AddsNothing }
{}

/// A law: what is written past an original's newest id makes it a longer original. An untouched log stands
/// for itself, and a standing log still stands when the same operations are
/// appended to it and to its original. It is a log: its ids rise, and only its first operation may be a CLEAR.
/// Its CLEAR and its targets are no later than its level.
pub fn standing_logs_stay_standing()
    ensures grown { GrowsLater }
    ensures untouched { StandsForItself }
    ensures later { StandsLater }
    ensures log { StandingIsLog }
    ensures level { WithinLevel }
{}

/// A law: from its CLEAR on, a standing log has the sums and the newest ids of its original.
pub fn standing_logs_have_the_sums_of_their_originals()
    ensures { SameSums }
{}

/// A law: a reader that takes a log up to an id has its sum as total and its newest id as position; whatever
/// it took before, it stands at the last id that it took.
pub fn totals_are_sums()
    ensures total { TotalIsSum }
    ensures position { StandsAtNewest }
{}

/// A law: a reader stands at the last id that it took, or where it stood if it took nothing. So who takes nothing past
/// an id does not get past it.
pub fn readers_stand_at_the_last_id()
    ensures place { StandsAfter }
    ensures within { StaysWithin }
{}

/// A law: a reader takes the same from operations without their targets.
pub fn readers_need_no_targets()
    ensures { NeedsNoTargets }
{}

/// A law: rising ids that go on from the last one rise.
pub fn rising_ids_rise_on()
    ensures { RisesOn }
{}

/// A law: a batch is the longest front that fits, with ids that rise from past the one that it is read after.
/// Batches that are read one after another, each after
/// the newest id so far, are the log up to the id that was asked for. A read from before the newest id gives
/// something to go on with. A batch's target is no later than the log's level.
pub fn batches_are_the_log()
    ensures longest { ReadsLongestFront }
    ensures rising { BatchRises }
    ensures together { BatchesAreTheLog }
    ensures on { ReadsOn }
    ensures target { TargetWithinLevel }
{}
