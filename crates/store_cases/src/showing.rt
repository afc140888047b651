//! The calls that read a store, and what each gives.

use case_words::Stop;
use ps_data::{Memory, Text};
use ps_store::Store;
use std::alloc::Global;

/// The checkpoint.
pub fn show_checkpoint(store: &Store, out: &mut String) -> Result<(), Stop> {
    let checkpoint = store.checkpoint();
    let (position, op) = (checkpoint.position.0, checkpoint.op.0);
    Ok(write!(out, "checkpoint {position} {op}")?)
}

/// The position of the last fed transaction, and whether the feed is closed.
pub fn show_head(store: &Store, out: &mut String) -> Result<(), Stop> {
    let closed = if store.closed() { "closed" } else { "open" };
    Ok(write!(out, "head {} {closed}", store.head().0)?)
}

/// How many operations the log of a bucket has.
pub fn show_log(alloc: Global, store: &Store, bucket: &str, out: &mut String) -> Result<(), Stop> {
    let name = Text::from_str(alloc, bucket)?;
    Ok(write!(out, "log {bucket} {}", store.log_length(&name))?)
}

/// What was fed and written, and all operations that were ever made.
pub fn show_totals(store: &Store, out: &mut String) -> Result<(), Stop> {
    let totals = store.totals();
    let changes = u64::try_from(totals.changes)?;
    write!(
        out,
        "transactions {} changes {changes}",
        totals.transactions
    )?;
    let (operations, buckets, sum) = (totals.operations, totals.buckets, totals.sum.0);
    Ok(write!(out, " operations {operations} buckets {buckets} sum {sum}")?)
}

/// The names of the buckets that ever had an operation.
pub fn show_names(alloc: Global, store: &Store, out: &mut String) -> Result<(), Stop> {
    let names = match store.bucket_names(alloc) {
        Ok(names) => names,
        Err(Memory) => return Ok(out.push_str("memory")?),
    };
    out.push_str("names")?;
    'names: for name in names.as_slice() {
        write!(out, " {}", name.as_str())?;
    }
    Ok(())
}
