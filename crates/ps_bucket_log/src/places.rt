//! Parts of a list of operations with rising ids, found by their ids.

ghost use Rattle.std.specs.Prelude.{◌≡◌, ◌≤◌, take, drop, length};
ghost use Rattle.ps_bucket_log.specs.Ops.{upto as up_to, past, newest, sum_of, later_id, greatest_target};
ghost use Rattle.ps_bucket_log.specs.Logs.{IsRising, cleared};

use crate::Op;
use crate::searches::{Placed, place_past};
use crate::steps::Steps;
use ps_checksum::{Sum, add};
use ps_data::OpId;
use std::sync::ledger::Ledger;

// How many operations have ids up to the given one.
pub fn len_upto<L: Ledger>(ops: &[Op], id: OpId, steps: &mut Steps<L>) -> usize
    requires { IsRising 0 ops.now }
    ensures within { result ≤ length ops.now }
    ensures front { take result ops.now ≡ up_to id.0 ops.now }
    ensures back { drop result ops.now ≡ past id.0 ops.now }
{
    place_past(ops, id, steps)
}

// The operations with ids up to the given one.
pub fn front_upto<'a, L: Ledger>(ops: &'a [Op], id: OpId, steps: &mut Steps<L>) -> &'a [Op]
    requires { IsRising 0 ops.now }
    ensures { result.now ≡ up_to id.0 ops.now }
{
    let place = len_upto(ops, id, steps);
    &ops[..place]
}

// The operations with ids past the given one.
pub fn back_past<'a, L: Ledger>(ops: &'a [Op], id: OpId, steps: &mut Steps<L>) -> &'a [Op]
    requires { IsRising 0 ops.now }
    ensures value { result.now ≡ past id.0 ops.now }
    ensures rising { IsRising 0 result.now }
{
    let place = len_upto(ops, id, steps);
    &ops[place..]
}

// The id of the CLEAR, 0 where there is none.
pub fn clear_id<L: Ledger>(ops: &[Op], steps: &mut Steps<L>) -> OpId
    ensures { result.0 ≡ cleared ops.now }
{
    match ops {
        [] => OpId(0),
        [first, ..] => {
            steps.tick();
            match first {
                Op::Clear { id, .. } => *id,
                Op::Put { .. } | Op::Remove { .. } | Op::Move { .. } => OpId(0),
            }
        }
    }
}

// The id of the last operation, 0 where there is none.
pub fn newest_id<L: Ledger>(ops: &[Op], steps: &mut Steps<L>) -> OpId
    ensures { result.0 ≡ newest ops.now }
{
    match ops {
        [] => OpId(0),
        [.., last] => last.look_id(steps),
    }
}

// The sum of the checksums, modulo 2^32.
#[tactic(auto, using(crate::proofs::Loops::sum_of_more))]
pub fn total<L: Ledger>(ops: &[Op], steps: &mut Steps<L>) -> Sum
    ensures { result.0 ≡ sum_of ops.now }
{
    let mut total = Sum(0);
    'ops: for op in ops {
        steps.tick();
        total = add(total, op.sum());
    }
    total
}

// The greatest target.
#[tactic(auto, using(crate::proofs::Loops::greatest_target_more))]
pub fn last_target(ops: &[Op]) -> Option<OpId>
    ensures { result ≡ greatest_target ops.now }
{
    let mut greatest = None;
    'ops: for op in ops {
        greatest = later(greatest, op.target());
    }
    greatest
}

// The later of two ids, where there are any.
fn later(a: Option<OpId>, b: Option<OpId>) -> Option<OpId>
    ensures { result ≡ later_id a b }
{
    match (a, b) {
        (None, b) => b,
        (Some(a), None) => Some(a),
        (Some(a), Some(b)) => Some(if a.0 < b.0 { b } else { a }),
    }
}
