//! Compaction as its rule is told, with no thought of time: each operation is compared with all others.

use case_words::Stop;
use ps_bucket_log::{Key, Op};
use ps_checksum::{Sum, add};
use ps_compact::Report;
use ps_data::{Items, OpId};
use std::alloc::Global;

/// A compacted log, and how many operations were moved and cleared.
#[derive(Drop)]
pub struct Plain {
    pub ops: Items<Op>,
    pub moved: u64,
    pub cleared: u64,
}

fn key_of(op: &Op) -> Option<&Key> {
    match op {
        Op::Put { key, .. } | Op::Remove { key, .. } => Some(key),
        Op::Move { .. } | Op::Clear { .. } => None,
    }
}

fn is_put(op: &Op) -> bool {
    match op {
        Op::Put { .. } => true,
        Op::Remove { .. } | Op::Move { .. } | Op::Clear { .. } => false,
    }
}

// Whether one operation up to the level makes another needless.
fn outdates(later: &Op, op: &Op, level: u64) -> bool {
    match (key_of(op), key_of(later)) {
        (Some(key), Some(own)) => {
            op.id().0 < later.id().0 && later.id().0 <= level && key.equals(own)
        }
        _ => false,
    }
}

fn last_outdating(ops: &[Op], op: &Op, level: u64) -> Option<OpId> {
    let mut last = None;
    'ops: for later in ops {
        if outdates(later, op, level) {
            last = Some(later.id());
        }
    }
    last
}

fn moved(alloc: Global, ops: &[Op], level: u64) -> Result<(Items<Op>, u64), Stop> {
    let mut all = Items::new(alloc);
    let mut count: u64 = 0;
    'ops: for op in ops {
        match last_outdating(ops, op, level) {
            Some(target) => {
                let (id, sum) = (op.id(), op.sum());
                all.push(Op::Move { id, sum, target })?;
                count = count.wrapping_add(1);
            }
            None => all.push(op.copy(alloc)?)?,
        }
    }
    Ok((all, count))
}

// The id up to which no operation is a PUT, and how many these are.
fn front_of(ops: &[Op], level: u64) -> (OpId, u64) {
    let mut last = OpId(0);
    let mut count: u64 = 0;
    'ops: for op in ops {
        if is_put(op) || level < op.id().0 {
            break;
        }
        last = op.id();
        count = count.wrapping_add(1);
    }
    (last, count)
}

// The CLEAR of the operations up to an id.
fn clear_upto(ops: &[Op], last: OpId) -> Op {
    let mut sum = Sum(0);
    let mut greatest: u64 = 0;
    'ops: for op in ops {
        if op.id().0 <= last.0 {
            sum = add(sum, op.sum());
            greatest = greatest.max(op.target().map_or(0, |target| target.0));
        }
    }
    let target = if last.0 < greatest {
        Some(OpId(greatest))
    } else {
        None
    };
    Op::Clear {
        id: last,
        sum,
        target,
    }
}

/// The compacted log.
pub fn compacted(alloc: Global, ops: &[Op], level: u64) -> Result<Plain, Stop> {
    let (ops, moved) = moved(alloc, ops, level)?;
    let (last, count) = front_of(ops.as_slice(), level);
    if count < 2 {
        return Ok(Plain {
            ops,
            moved,
            cleared: 0,
        });
    }
    let mut all = Items::new(alloc);
    all.push(clear_upto(ops.as_slice(), last))?;
    'ops: for op in ops.as_slice() {
        if last.0 < op.id().0 {
            all.push(op.copy(alloc)?)?;
        }
    }
    Ok(Plain {
        ops: all,
        moved,
        cleared: count,
    })
}

/// Whether a report tells this of a log that had so many operations.
pub fn is_told(plain: &Plain, before: usize, report: &Report) -> bool {
    report.moved == plain.moved
        && report.cleared == plain.cleared
        && report.before == before as u64
        && report.after == plain.ops.len() as u64
}
