//! Copies of a state.

ghost use Rattle.std.specs.Prelude.{◌≡◌, IfOk};

use ps_client_lines::Queued;
use ps_client_log::{BucketState, Held, State};
use ps_data::{Items, Memory, copy_all};
use std::alloc::Global;

// An equal entry.
pub fn held_copy(alloc: Global, held: &Held) -> Result<Held, Memory>
    ensures { IfOk result (λ copy. copy ≡ held.now) }
{
    Ok(Held {
        key: held.key.copy(alloc)?,
        id: held.id,
        content: held.content.copy(alloc)?,
        sum: held.sum,
    })
}

// Equal entries, in order.
fn all_held(alloc: Global, held: &[Held]) -> Result<Items<Held>, Memory>
    ensures { IfOk result (λ copies. copies ≡ held.now) }
{
    let mut copies = Items::new(alloc);
    'held: for one in held {
        copies.push(held_copy(alloc, one)?)?;
    }
    Ok(copies)
}

// An equal bucket.
fn bucket_copy(alloc: Global, bucket: &BucketState) -> Result<BucketState, Memory>
    ensures { IfOk result (λ copy. copy ≡ bucket.now) }
{
    Ok(BucketState {
        name: bucket.name.copy(alloc)?,
        position: bucket.position,
        added: bucket.added,
        held: all_held(alloc, bucket.held.as_slice())?,
    })
}

// Equal buckets, in order.
fn all_buckets(alloc: Global, buckets: &[BucketState]) -> Result<Items<BucketState>, Memory>
    ensures { IfOk result (λ copies. copies ≡ buckets.now) }
{
    let mut copies = Items::new(alloc);
    'buckets: for one in buckets {
        copies.push(bucket_copy(alloc, one)?)?;
    }
    Ok(copies)
}

// An equal state.
pub fn state_copy(alloc: Global, kept: &State) -> Result<State, Memory>
    ensures { IfOk result (λ copy. copy ≡ kept.now) }
{
    Ok(State {
        buckets: all_buckets(alloc, kept.buckets.as_slice())?,
        queue: copy_all(alloc, kept.queue.as_slice())?,
        target: kept.target,
        shown: copy_all(alloc, kept.shown.as_slice())?,
    })
}

// Equal local writes, in order.
pub fn queue_copy(alloc: Global, queue: &[Queued]) -> Result<Items<Queued>, Memory>
    ensures { IfOk result (λ copies. copies ≡ queue.now) }
{
    let mut copies = Items::new(alloc);
    'queue: for line in queue {
        copies.push(Queued {
            seq: line.seq,
            text: line.text.copy(alloc)?,
            change: line.change.copy(alloc)?,
        })?;
    }
    Ok(copies)
}
