//! How far a writer is.

ghost use Rattle.ps_workers.specs.Renewing.{WhenDue};

use crate::ends::WorkEnd;
use ps_definitions::Rules;

/// New rules for a store, and when they come.
#[derive(Debug, Drop)]
pub struct NextRules {
    /// The rules.
    pub rules: Rules,
    /// They come once so many transactions are written and committed.
    pub after: u64,
}

/// How far a writer is with new rules.
#[derive(Debug, Drop)]
pub(crate) enum Stage {
    /// They wait until enough transactions are committed.
    Waiting(NextRules),
    /// A generation of buckets is being built by them, or by others that came before them.
    Building,
    /// None are to come.
    NoneToCome,
}

/// How a writer goes on after a step.
#[derive(Clone, Copy, Debug)]
pub(crate) enum Pace {
    /// It wrote, so there may be more.
    On,
    /// There was nothing to write.
    Rest,
    /// It is at its end.
    Over(WorkEnd),
}
