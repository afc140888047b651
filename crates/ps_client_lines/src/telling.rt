//! The state that the rows of all tables are.

ghost use Rattle.std.specs.Prelude.{◌≡◌, map, IfOk, IfErr};
ghost use Rattle.std.specs.List.{All, IsDistinct};
ghost use Rattle.ps_changes.specs.LongLines.{IsLongChange};
ghost use Rattle.ps_client_log.specs.Soundness.{IsSoundState, IsSoundTarget, same_row};
ghost use Rattle.ps_client_lines.specs.Rows.{bucket_rows, entry_rows, queue_rows, shown_rows};
ghost use Rattle.ps_client_lines.specs.Refusing.{Blames, BlamesBuckets, BlamesQueue, BlamesSeen};
ghost use Rattle.ps_client_lines.specs.Holding.{AreAimRows, AreRowsOf, AreRising, AreSoundBuckets};

use crate::faults::at_table;
use crate::tables::{aim_in, bucket_lines, bucket_states, queue_in, shown_list};
use crate::{Queued, Rows, RowsFault};
use ps_client_log::{BucketState, Hashing, Shown, State, Target};
use ps_data::{Items, Memory};
use ps_rows::Change;
use std::alloc::Global;

// The changes of local writes.
fn changes_of(alloc: Global, queue: &[Queued]) -> Result<Items<Change>, Memory>
    ensures { IfOk result (λ changes. changes ≡ map (λ line. line.change) queue.now) }
{
    let mut changes = Items::new(alloc);
    'queue: for line in queue {
        changes.push(line.change.copy(alloc)?)?;
    }
    Ok(changes)
}

// The buckets, with what they hold, that the rows of the first two tables are.
fn buckets_in(alloc: Global, hashing: Hashing, rows: &Rows) -> Result<Items<BucketState>, RowsFault>
    ensures buckets { IfOk result (λ states. bucket_rows states ≡ rows.now.buckets) }
    ensures entries { IfOk result (λ states. entry_rows states ≡ rows.now.entries) }
    ensures sound { IfOk result AreSoundBuckets }
    ensures blames { IfErr result (BlamesBuckets rows.now) }
{
    let lines = match bucket_lines(alloc, hashing, rows.buckets.as_slice()) {
        Ok(lines) => lines,
        Err(refusal) => return Err(at_table(refusal, 1)),
    };
    match bucket_states(alloc, hashing, lines, rows.entries.as_slice()) {
        Ok(states) => Ok(states),
        Err(refusal) => Err(at_table(refusal, 2)),
    }
}

// The local writes that the rows of the third table are.
fn writes_in(alloc: Global, rows: &Rows) -> Result<Items<Queued>, RowsFault>
    ensures rows { IfOk result (λ queue. queue_rows queue ≡ rows.now.queue) }
    ensures rising { IfOk result AreRising }
    ensures texts { IfOk result (All (λ line. IsLongChange line.text line.change)) }
    ensures blames { IfErr result (BlamesQueue rows.now) }
{
    match queue_in(alloc, rows.queue.as_slice()) {
        Ok(queue) => Ok(queue),
        Err(refusal) => Err(at_table(refusal, 3)),
    }
}

// The target and the shown rows that the rows of the last two tables are.
fn seen_in(
    alloc: Global,
    hashing: Hashing,
    rows: &Rows,
) -> Result<(Target, Items<Shown>), RowsFault>
    ensures aim { IfOk result (λ seen. AreAimRows seen.0 rows.now.aim) }
    ensures target { IfOk result (λ seen. IsSoundTarget seen.0) }
    ensures shown { IfOk result (λ seen. shown_rows seen.1 ≡ rows.now.shown) }
    ensures objects { IfOk result (λ seen. IsDistinct same_row seen.1) }
    ensures blames { IfErr result (BlamesSeen rows.now) }
{
    let target = match aim_in(rows.aim.as_slice()) {
        Ok(target) => target,
        Err(refusal) => return Err(at_table(refusal, 4)),
    };
    match shown_list(alloc, hashing, rows.shown.as_slice()) {
        Ok(shown) => Ok((target, shown)),
        Err(refusal) => Err(at_table(refusal, 5)),
    }
}

/// The state that the rows of the tables are, and its local writes with their numbers and texts. Fails with `BadState` where a table has a
/// row that is none of a state, and names the first such table; and with `Memory`. Keys are told apart by maps that hash as given: where a peer chose
/// them, by a seed that it does not know.
pub fn state_in(
    alloc: Global,
    hashing: Hashing,
    rows: &Rows,
) -> Result<(State, Items<Queued>), RowsFault>
    ensures rows { IfOk result (λ told. AreRowsOf told.0 told.1 rows.now) }
    ensures sound { IfOk result (λ told. IsSoundState told.0) }
    ensures rising { IfOk result (λ told. AreRising told.1) }
    // The table that is named has a row that is none of a state, and the rows of those before it are those of a state.
    ensures blames { IfErr result (Blames rows.now) }
{
    let buckets = buckets_in(alloc, hashing, rows)?;
    let writes = writes_in(alloc, rows)?;
    let (target, shown) = seen_in(alloc, hashing, rows)?;
    let queue = changes_of(alloc, writes.as_slice())?;
    let state = State {
        buckets,
        queue,
        target,
        shown,
    };
    Ok((state, writes))
}
