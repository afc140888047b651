// A lock, its seats and its turns, over a table of atomic words. The calls on each stand in a file of their own, since their clauses speak of
// all three types.
ghost use Rattle.std.specs.Prelude.{◌≡◌, true, length, Some, []};
ghost use Rattle.ps_lock.specs.Moves.{rested};
ghost use Rattle.ps_lock.specs.Rule.{is_learnt, is_out};

use crate::rules::OneHistory;
use crate::views::View;
use atomic_table::Table;
use ps_kept::Kept;
use std::alloc::Global;
use std::snapshot::Snapshot;

pub(crate) type Place<V> = atomic_table::Seat<Option<V>, View<<V as Kept>::Entry, V>>;

/// One history, and the value that stands for it whenever no turn has it. The value goes by the setting of the one that the lock was opened on.
#[derive(Drop)]
pub struct StoreLock<V: Kept> {
    pub(crate) table: Table<Option<V>, View<V::Entry, V>, Snapshot<V>, OneHistory<V>, Global>,
    ghost sized: { (table.shared.table_id.words ≡ 3) × (table.shared.table_id.slots ≡ 1) },
}

/// A seat at a lock, between its turns. It has seen a prefix of the lock's history, and has its own entries: those that its turns, and the turns of
/// seats joined into it, have added, each with the place right after it. A place n names the first n entries of what a seat has seen.
#[derive(Drop)]
pub struct Seat<V: Kept> {
    pub(crate) place: atomic_table::Seat<Option<V>, View<V::Entry, V>>,
    pub(crate) seen: u64,
    ghost idle: { place.me ≡ (rested place.me.0, []) },
    ghost counted: { seen ≡ length place.me.0.seen },
}

/// A seat's turn: it has seen the whole history, which nobody else can add to, and has the value. A turn that is dropped lets no later turn come.
#[derive(Drop)]
pub struct Turn<'a, V: Kept> {
    pub(crate) lock: &'a StoreLock<V>,
    pub(crate) place: atomic_table::Seat<Option<V>, View<V::Entry, V>>,
    pub(crate) seen: u64,
    pub(crate) value: V,
    ghost seated: { place.table_id ≡ lock.now.table.shared.table_id },
    ghost opened: { place.me.0.origin ≡ Some lock.now.table.shared.key.value },
    ghost serving: { is_learnt place.me.0.stage ≡ true },
    ghost bare: { place.me.0.met ≡ [] },
    ghost holding: { is_out place.me.1 ≡ true },
    ghost counted: { seen ≡ length place.me.0.seen },
}
