//! A search by halves, with its looks counted.

ghost use Rattle.std.specs.Prelude.{ℕ, ◌≡◌, ◌+◌, ◌-◌, ◌*◌, ◌^◌, ◌<◌, ◌≤◌, length, slice_index_or};
ghost use Rattle.ps_bucket_log.specs.Ops.{id_of};

use crate::Op;
use crate::steps::Steps;
use ps_data::OpId;
use std::sync::ledger::Ledger;

/// What stands in a list by an id, which one look finds.
pub trait Placed {
    ghost use Rattle.std.specs.Prelude.{ℕ};

    /// Its id.
    ghost id: { Self → ℕ };

    /// One look at the id.
    fn look_id<L: Ledger>(&self, steps: &mut Steps<L>) -> OpId
        ensures id { result.0 ≡ id self.now }
        ensures counted { steps.new ≡ steps.old + 1 };
}

impl Placed for Op {
    ghost id = { id_of };

    fn look_id<L: Ledger>(&self, steps: &mut Steps<L>) -> OpId {
        steps.tick();
        self.id()
    }
}

/// A place up to which the ids are no later than the given one, and past which they are later, where the ids rise.
pub fn place_past<T: Placed, L: Ledger>(all: &[T], id: OpId, steps: &mut Steps<L>) -> usize
    ensures within { result ≤ length all.now }
    ensures front { (k : ℕ) (d : T) → result ≡ k + 1 → T.id (slice_index_or all.now k d) ≤ id.0 }
    ensures back { (d : T) → result < length all.now
        → id.0 < T.id (slice_index_or all.now result d) }
    ensures counted { steps.old ≤ steps.new }
    ensures cost { 2 ^ (steps.new - steps.old) ≤ 2 * length all.now + 1 }
{
    let mut low = 0;
    let mut high = all.len();
    'halves: while low < high {
        let middle = low + (high - low) / 2;
        if all[middle].look_id(steps).0 <= id.0 {
            low = middle + 1;
        } else {
            high = middle;
        }
    }
    low
}
