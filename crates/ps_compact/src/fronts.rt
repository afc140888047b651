//! What stands before the first PUT.

ghost use Rattle.std.specs.Prelude.{◌≡◌, ◌≤◌, length, IfOk};
ghost use Rattle.ps_bucket_log.specs.Ops.{is_put as has_content, newest, sum_of, later_id, greatest_target};
ghost use Rattle.ps_compact.specs.Compaction.{front_count, target_past, clear_for, cleared_count, with_clear as cleared_ops};

use ps_bucket_log::Op;
use ps_checksum::{Sum, add};
use ps_data::{Memory, OpId};
use std::alloc::Global;

// Whether it is a PUT.
fn is_put(op: &Op) -> bool
    ensures { result ≡ has_content op.now }
{
    match op {
        Op::Put { .. } => true,
        Op::Remove { .. } | Op::Move { .. } | Op::Clear { .. } => false,
    }
}

// How many operations stand before the first PUT.
#[tactic(auto, using(crate::proofs::Steps::front_more, crate::proofs::Steps::front_ends))]
fn front_len(ops: &[Op]) -> usize
    ensures within { result ≤ length ops.now }
    ensures count { result ≡ front_count ops.now }
{
    'ops: for (count, op) in ops.iter().enumerate() {
        if is_put(op) {
            return count;
        }
    }
    ops.len()
}

// The later of two ids, where there are any.
fn later(a: Option<OpId>, b: Option<OpId>) -> Option<OpId>
    ensures { result ≡ later_id a b }
{
    match (a, b) {
        (None, b) => b,
        (Some(a), None) => Some(a),
        (Some(a), Some(b)) => Some(if a.0 < b.0 { b } else { a }),
    }
}

// The target, where it is past the id.
fn past_id(id: OpId, target: Option<OpId>) -> Option<OpId>
    ensures { result ≡ target_past id.0 target }
{
    match target {
        Some(target) if id.0 < target.0 => Some(target),
        _ => None,
    }
}

// The id of the last operation, 0 where there is none.
fn newest_id(ops: &[Op]) -> OpId
    ensures { result.0 ≡ newest ops.now }
{
    match ops {
        [] => OpId(0),
        [.., last] => last.id(),
    }
}

// The sum of the checksums, modulo 2^32.
#[tactic(auto, using(crate::proofs::Steps::sum_of_more))]
fn total(ops: &[Op]) -> Sum
    ensures { result.0 ≡ sum_of ops.now }
{
    let mut total = Sum(0);
    'ops: for op in ops {
        total = add(total, op.sum());
    }
    total
}

// The greatest target.
#[tactic(auto, using(crate::proofs::Steps::greatest_target_more, crate::proofs::Steps::greatest_target_none))]
fn last_target(ops: &[Op]) -> Option<OpId>
    ensures { result ≡ greatest_target ops.now }
{
    let mut greatest = None;
    'places: for place in (0..ops.len()).rev() {
        greatest = later(ops[place].target(), greatest);
    }
    greatest
}

// The CLEAR in place of operations.
fn clear_of(ops: &[Op]) -> Op
    ensures { result ≡ clear_for ops.now }
{
    let id = newest_id(ops);
    Op::Clear {
        id,
        sum: total(ops),
        target: past_id(id, last_target(ops)),
    }
}

// How many operations a CLEAR replaces.
pub fn cleared_len(ops: &[Op]) -> usize
    ensures { result ≡ cleared_count ops.now }
{
    let count = front_len(ops);
    if count > 1 { count } else { 0 }
}

// The operations, with a CLEAR in place of those before the first PUT, where these are two or more.
pub fn with_clear(alloc: Global, ops: Vec<Op>) -> Result<Vec<Op>, Memory>
    ensures { IfOk result (λ all. all.items ≡ cleared_ops ops.items) }
{
    let count = front_len(ops.as_slice());
    if count < 2 {
        return Ok(ops);
    }
    let mut front = ops;
    let mut back = front.split_off(count)?;
    let mut all = Vec::new(alloc);
    all.push(clear_of(front.as_slice()))?;
    all.append(&mut back)?;
    Ok(all)
}
