//! The store that connections are answered on, and its calls, each in one turn.

ghost use Rattle.std.specs.Prelude.{IfOk};
ghost use Rattle.ps_lock.specs.Words.{IsSeatOf};

use case_stores::{limits_of, rules_of, transaction_of};
use case_words::{Stop, number_in};
use ps_data::Text;
use ps_lock::{Seat, StoreLock};
use ps_workers::{
    SharedStore, close_in_turn, commit_in_turn, compact_in_turn, feed_in_turn, open_store,
    write_in_turn,
};
use std::alloc::Global;
use std::sync::Wait;

/// A lock round a store for the rules of a text, under limits, and its first seat.
pub fn new_store(
    alloc: Global,
    rules: &str,
    limits: &str,
) -> Result<(StoreLock<SharedStore>, Seat<SharedStore>), Stop>
    ensures { IfOk result (λ r. IsSeatOf r.0 r.1) }
{
    let limits = limits_of(limits)?;
    let rules = rules_of(alloc, rules)?;
    Ok(open_store(alloc, rules, &None, limits)?)
}

// Whether a call was accepted.
fn accepted(done: bool) -> Result<(), Stop> {
    if done { Ok(()) } else { Err("refused")? }
}

fn feed<R: Wait>(
    rt: &R,
    alloc: Global,
    lock: &StoreLock<SharedStore>,
    seat: Seat<SharedStore>,
    line: &str,
) -> (Seat<SharedStore>, Result<(), Stop>)
    requires { IsSeatOf lock.now seat }
    ensures { IsSeatOf lock.now result.0 }
{
    match transaction_of(alloc, line) {
        Ok(transaction) => {
            let (seat, fed) = feed_in_turn(rt, alloc, lock, seat, transaction);
            (seat, accepted(fed.is_ok()))
        }
        Err(stop) => (seat, Err(stop)),
    }
}

// The change line at position 1 that puts rows of `t`, `r0` and so on.
fn rows_line(alloc: Global, count: u64) -> Result<String, Stop> {
    let mut line = String::from_str(alloc, "{\"pos\":\"1\",\"changes\":[")?;
    'rows: for row in 0..count {
        if row != 0 {
            line.push_str(",")?;
        }
        line.push_str("{\"op\":\"PUT\",\"table\":\"t\",\"id\":\"r")?;
        write!(line, "{row}")?;
        line.push_str("\",\"row\":{}}")?;
    }
    line.push_str("]}")?;
    Ok(line)
}

// The change line that a word and what stands behind it ask for.
fn line_of(alloc: Global, word: &str, rest: &str) -> Result<String, Stop> {
    match word {
        "rows" => rows_line(alloc, number_in(rest)?),
        _ => Ok(String::from_str(alloc, rest)?),
    }
}

fn feed_line<R: Wait>(
    rt: &R,
    alloc: Global,
    lock: &StoreLock<SharedStore>,
    seat: Seat<SharedStore>,
    word: &str,
    rest: &str,
) -> (Seat<SharedStore>, Result<(), Stop>)
    requires { IsSeatOf lock.now seat }
    ensures { IsSeatOf lock.now result.0 }
{
    match line_of(alloc, word, rest) {
        Ok(line) => feed(rt, alloc, lock, seat, line.as_str()),
        Err(stop) => (seat, Err(stop)),
    }
}

fn compact<R: Wait>(
    rt: &R,
    alloc: Global,
    lock: &StoreLock<SharedStore>,
    seat: Seat<SharedStore>,
    name: &str,
) -> (Seat<SharedStore>, Result<(), Stop>)
    requires { IsSeatOf lock.now seat }
    ensures { IsSeatOf lock.now result.0 }
{
    match Text::from_str(alloc, name) {
        Ok(bucket) => {
            let (seat, report) = compact_in_turn(rt, alloc, lock, seat, &bucket);
            (seat, accepted(report.is_ok()))
        }
        Err(memory) => (seat, Err(Stop::from(memory))),
    }
}

fn write<R: Wait>(
    rt: &R,
    alloc: Global,
    lock: &StoreLock<SharedStore>,
    seat: Seat<SharedStore>,
) -> (Seat<SharedStore>, Result<(), Stop>)
    requires { IsSeatOf lock.now seat }
    ensures { IsSeatOf lock.now result.0 }
{
    let (seat, wrote) = write_in_turn(rt, alloc, lock, seat, 1000000);
    (seat, accepted(wrote.is_ok()))
}

fn commit<R: Wait>(
    rt: &R,
    lock: &StoreLock<SharedStore>,
    seat: Seat<SharedStore>,
) -> (Seat<SharedStore>, Result<(), Stop>)
    requires { IsSeatOf lock.now seat }
    ensures { IsSeatOf lock.now result.0 }
{
    let (seat, committed) = commit_in_turn(rt, lock, seat);
    (seat, accepted(committed.is_ok()))
}

/// A call that changes the store.
pub fn change<R: Wait>(
    rt: &R,
    alloc: Global,
    lock: &StoreLock<SharedStore>,
    seat: Seat<SharedStore>,
    word: &str,
    rest: &str,
) -> (Seat<SharedStore>, Result<(), Stop>)
    requires { IsSeatOf lock.now seat }
    ensures { IsSeatOf lock.now result.0 }
{
    match word {
        "feed" | "rows" => feed_line(rt, alloc, lock, seat, word, rest),
        "write" => write(rt, alloc, lock, seat),
        "commit" => commit(rt, lock, seat),
        "compact" => compact(rt, alloc, lock, seat, rest),
        "close" => (close_in_turn(rt, lock, seat), Ok(())),
        _ => (seat, Err(Stop)),
    }
}
