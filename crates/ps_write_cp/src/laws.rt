//! The laws of write checkpoints. Each is the contract of a function that does nothing.

ghost use Rattle.ps_write_cp.specs.Laws.{CoveredIsGreatest, CoversAllBefore};

/// A law: what a position covers is the greatest number whose head is at most the position; there is none where no number's head is.
pub fn covered_is_the_greatest()
    ensures { CoveredIsGreatest }
{}

/// A law: where heads never fall, the head of each number up to the covered one is at most the position. So a client whose number is
/// covered finds there all that it had uploaded before it asked for that number.
pub fn covers_all_before()
    ensures { CoversAllBefore }
{}
