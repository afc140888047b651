//! Made stores, and what is counted of a store.

ghost use Rattle.std.specs.Prelude.{IfOk};
ghost use Rattle.ps_lock.specs.Words.{IsSeatOf};

use case_words::Stop;
use ps_data::Text;
use ps_gen::make_rules;
use ps_lock::{Seat, StoreLock};
use ps_rules::read_rules;
use ps_store::{Limits, Store};
use ps_workers::{SharedStore, open_store};
use std::alloc::Global;

/// A lock round a store for the made rules, and its first seat.
pub fn made_store(alloc: Global) -> Result<(StoreLock<SharedStore>, Seat<SharedStore>), Stop>
    ensures { IfOk result (λ r. IsSeatOf r.0 r.1) }
{
    let bytes = make_rules(alloc)?;
    let rules = read_rules(alloc, bytes.as_slice())?;
    Ok(open_store(alloc, rules, &None, Limits::usual())?)
}

// What the store counts.
fn write_totals(store: &Store, out: &mut String) -> Result<(), Stop> {
    let totals = store.totals();
    write!(
        out,
        " totals {} {} {} {} {}",
        totals.transactions, totals.changes, totals.operations, totals.buckets, totals.sum.0
    )?;
    Ok(())
}

/// The head, the checkpoint, how long the logs of the seven made buckets are, and the totals.
pub fn write_store(alloc: Global, store: &Store, out: &mut String) -> Result<(), Stop> {
    let checkpoint = store.checkpoint();
    write!(
        out,
        "head {} checkpoint {} {} logs",
        store.head().0,
        checkpoint.position.0,
        checkpoint.op.0
    )?;
    'owners: for owner in 0..7u32 {
        let name = Text::from_string(format!(in alloc; "mine[\"u{owner}\"]")?);
        write!(out, " {}", store.log_length(&name))?;
    }
    write_totals(store, out)
}
