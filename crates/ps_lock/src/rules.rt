// The rule of a lock's table. Word 0 is the length of the history, word 1 the next ticket, and word 2 the ticket that is served. The one slot
// holds the value, or None while a turn has it.
use crate::views::View;
use atomic_table::TableRule;
use ps_kept::Kept;
use std::marker::PhantomData;
use std::snapshot::Snapshot;

/// The rule that a lock keeps from step to step, for the proofs alone: `KeepsRule` of `specs/Rule.antt`.
pub struct OneHistory<V> {
    of: PhantomData<V>,
}

impl<V: Kept> TableRule<Option<V>, View<V::Entry, V>, Snapshot<V>> for OneHistory<V> {
    ghost use Rattle.ps_lock.specs.Rule.{KeepsRule, first_view};

    ghost holds = { λ key s. KeepsRule V.set_by V.stands key.value s };

    ghost first = { λ key. first_view key.value };
}
