//! Commits over a disk in memory that stops at some call.

ghost use Rattle.std.specs.Prelude.{IsTrue, IfOk};
ghost use Rattle.sqlite_disk.specs.Memory.{memory_is_usable};

use crate::desks::{opened, write_step};
use crate::shown::write_tables;
use case_words::{Stop, cut};
use ps_client::Client;
use ps_client_log::Keeper;
use ps_client_sqlite::SqliteKeeper;
use sqlite::{Connection, FileStore, Options};
use sqlite_disk::{Crash, Disk, Files, Fuse, Memory};
use std::alloc::Global;

type Store = FileStore<Fuse<Memory>>;

// More calls than any run makes.
const CALLS: u64 = 1000;

// A file with these bytes, all of them sure.
fn file(alloc: Global, bytes: &[u8]) -> Result<Memory, Stop>
    ensures { IfOk result (λ memory. IsTrue (memory_is_usable memory)) }
{
    let mut memory = Memory::new(alloc);
    memory.write_at(0, bytes)?;
    if !memory.may_be_used() {
        return Err("a file in memory is never refused".into());
    }
    Ok(memory)
}

// A database over two files, whose log takes so many calls and then none.
fn connected(
    alloc: Global,
    files: Files<Memory>,
    calls: u64,
) -> Result<Option<Connection<Store>>, Stop> {
    let Files { log, db } = files;
    let files = Files {
        log: Fuse::new(log, calls),
        db: Fuse::new(db, u64::MAX),
    };
    if !files.may_be_used() {
        return Err("a file in memory is never refused".into());
    }
    match Connection::open_files(alloc, files, Options::new(1)) {
        Ok(connection) => Ok(Some(connection)),
        Err((_error, _left)) => Ok(None),
    }
}

// What a crash leaves of the files.
fn crashed(alloc: Global, connection: Connection<Store>) -> Result<Files<Memory>, Stop> {
    let Files { log, db } = connection.into_store().close();
    let mut log = log;
    let mut db = db;
    log.crash();
    db.crash();
    Ok(Files {
        log: file(alloc, log.inner().bytes())?,
        db: file(alloc, db.inner().bytes())?,
    })
}

// A run: what a crash at its end leaves, and how many of its steps were taken.
#[derive(Drop)]
struct Run {
    files: Files<Memory>,
    taken: u64,
}

// Takes steps until the keeper fails at one, and says how many were taken.
fn take_steps<K: Keeper>(alloc: Global, client: &mut Client<K>, steps: &str) -> Result<u64, Stop> {
    let mut taken = 0u64;
    'steps: for step in steps.split('|') {
        let mut out = String::new(alloc);
        let (word, rest) = cut(step);
        write_step(alloc, client, word, rest, &mut out)?;
        if out.as_str().ends_with("keeper failed") {
            return Ok(taken);
        }
        taken = taken.saturating_add(1);
    }
    Ok(taken)
}

// Takes steps over an empty database, until the keeper fails at one. None where the database is not opened.
fn make_run(alloc: Global, calls: u64, steps: &str) -> Result<Option<Run>, Stop> {
    let empty = Files {
        log: Memory::new(alloc),
        db: Memory::new(alloc),
    };
    let Some(connection) = connected(alloc, empty, calls)? else {
        return Ok(None);
    };
    let Ok(keeper) = SqliteKeeper::open(alloc, connection) else {
        return Ok(None);
    };
    let mut client = opened(alloc, keeper)?;
    let taken = take_steps(alloc, &mut client, steps)?;
    let files = crashed(alloc, client.close().into_connection())?;
    Ok(Some(Run { files, taken }))
}

// The rows of all tables that files have.
fn tables_in(alloc: Global, files: Files<Memory>) -> Result<String, Stop> {
    let mut out = String::new(alloc);
    let Some(connection) = connected(alloc, files, u64::MAX)? else {
        return Err("the files are not opened".into());
    };
    let Ok(keeper) = SqliteKeeper::open(alloc, connection) else {
        return Err("the tables are not opened".into());
    };
    let mut connection = keeper.into_connection();
    write_tables(&mut connection, &mut out)?;
    Ok(out)
}

// The rows of all tables after steps that nothing stops.
fn tables_after(alloc: Global, steps: &str) -> Result<String, Stop> {
    match make_run(alloc, CALLS, steps)? {
        Some(run) => tables_in(alloc, run.files),
        None => Err("the database is not opened".into()),
    }
}

// How the last step ended, and which tables a crash leaves then.
fn left(is_taken: bool, tables: &str, before: &str, after: &str) -> &'static str {
    match (is_taken, tables == before, tables == after) {
        (false, true, _) => "failed before; ",
        (false, false, true) => "failed after; ",
        (false, false, false) => "failed neither; ",
        (true, _, true) => "taken after; ",
        (true, _, false) => "taken and not after; ",
    }
}

// The rows of all tables before the last step and after it.
#[derive(Drop)]
struct Around {
    before: String,
    after: String,
}

// Takes steps over a disk that stops at a call, and says how the last one ended. Answers whether it was taken.
fn write_end(
    alloc: Global,
    calls: u64,
    steps: &str,
    count: u64,
    around: &Around,
    out: &mut String,
) -> Result<bool, Stop> {
    let Some(run) = make_run(alloc, calls, steps)? else {
        return Ok(false);
    };
    let Run { files, taken } = run;
    if taken.saturating_add(1) < count {
        return Ok(false);
    }
    let tables = tables_in(alloc, files)?;
    let says = left(
        taken == count,
        tables.as_str(),
        around.before.as_str(),
        around.after.as_str(),
    );
    if !out.as_str().ends_with(says) {
        out.push_str(says)?;
    }
    Ok(taken == count)
}

/// Takes steps, which `|` parts, over a database on a disk that stops at each call in turn. For the calls of the last step it says how the
/// step ended and which tables a crash leaves, where that is not as for the call before.
pub fn write_crashes(alloc: Global, steps: &str, out: &mut String) -> Result<(), Stop> {
    let Some((first, _last)) = steps.rsplit_once('|') else {
        return Err("there are two steps at least".into());
    };
    let around = Around {
        before: tables_after(alloc, first)?,
        after: tables_after(alloc, steps)?,
    };
    let count = steps.split('|').count() as u64;
    'calls: for calls in 0..CALLS {
        if write_end(alloc, calls, steps, count, &around, out)? {
            return Ok(());
        }
    }
    Ok(())
}
