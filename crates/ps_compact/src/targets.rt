//! Which operations later ones make needless.

ghost use Rattle.std.specs.Prelude.{◌≡◌, if◌then◌else◌, reverse, length, filter, is_some, Some, None, IfOk, OnOk};
ghost use Rattle.ps_bucket_log.specs.declared.ops.Key.{Key as RowKey};
ghost use Rattle.ps_bucket_log.specs.Ops.{same_key};
ghost use Rattle.ps_compact.specs.Compaction.{first_id, own_id, moved_to, moved as moved_of, targets_of};
ghost use Rattle.ps_compact.specs.Meeting.{id_met, target_among};

use ps_bucket_log::{Key, Op};
use ps_data::{Memory, OpId};
use std::alloc::Global;
use std::collections::BTreeMap;

// Meets a PUT or REMOVE of a key: gives the id that was met first, where there is one.
fn meet_key<'a>(
    met: &mut BTreeMap<&'a Key, OpId>,
    key: &'a Key,
    id: OpId,
) -> Result<Option<OpId>, Memory>
    ensures first { IfOk result (λ first. first ≡ id_met met.old key.now) }
    ensures met { OnOk result ((other : RowKey) → id_met met.new other
        ≡ first_id (id_met met.old other) (if same_key other key.now then Some id else None)) }
{
    if let Some(first) = met.get(&key) {
        return Ok(Some(*first));
    }
    met.insert(key, id)?;
    Ok(None)
}

// Meets an operation: gives the id that was met first of its key, where there is one.
fn meet<'a>(met: &mut BTreeMap<&'a Key, OpId>, op: &'a Op) -> Result<Option<OpId>, Memory>
    ensures target { IfOk result (λ target. target ≡ target_among (id_met met.old) op.now) }
    ensures met { OnOk result ((other : RowKey) → id_met met.new other
        ≡ first_id (id_met met.old other) (own_id other op.now)) }
{
    match op {
        Op::Put { id, key, .. } => meet_key(met, key, *id),
        Op::Remove { id, key, .. } => meet_key(met, key, *id),
        Op::Move { .. } | Op::Clear { .. } => Ok(None),
    }
}

// The target of each operation, the newest operation's first.
pub fn targets(alloc: Global, ops: &[Op]) -> Result<Vec<Option<OpId>>, Memory>
    ensures { IfOk result (λ targets. reverse targets.items ≡ targets_of ops.now) }
{
    let mut met = BTreeMap::new(alloc);
    let mut targets = Vec::new(alloc);
    'places: for place in (0..ops.len()).rev() {
        let target = meet(&mut met, &ops[place])?;
        targets.push(target)?;
    }
    Ok(targets)
}

// How many operations have a target.
pub fn moves(targets: &[Option<OpId>]) -> usize
    ensures { result ≡ length (filter is_some targets.now) }
{
    targets.iter().filter(|target| target.is_some()).count()
}

// An operation, made a MOVE with its id and its sum where it has a target.
fn moved(op: Op, target: Option<OpId>) -> Op
    ensures { result ≡ moved_to target op }
{
    match target {
        Some(target) => Op::Move {
            id: op.id(),
            sum: op.sum(),
            target,
        },
        None => op,
    }
}

// The operations, with their targets taken from the end.
pub fn moved_ops(alloc: Global, ops: Vec<Op>, targets: Vec<Option<OpId>>) -> Result<Vec<Op>, Memory>
    requires { reverse targets.items ≡ targets_of ops.items }
    ensures { IfOk result (λ all. all.items ≡ moved_of ops.items) }
{
    let mut targets = targets;
    let mut all = Vec::new(alloc);
    'ops: for op in ops {
        let target = targets.pop().unwrap_or(None);
        all.push(moved(op, target))?;
    }
    Ok(all)
}
