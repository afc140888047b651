//! What a client keeps, and what its tables have, as text.

use case_words::Stop;
use ps_client::Client;
use ps_client_log::{BucketState, Keeper, Shown, State, Target};
use ps_client_sqlite::StoreFault;
use ps_client_tables::{read_aim, read_buckets, read_entries, read_queue, read_shown};
use ps_rows::Change;
use sqlite::types::ValueRef;
use sqlite::{Alter, Connection, Row};
use std::alloc::Global;

/// Writes why a store was not opened.
pub fn write_store_fault(fault: StoreFault, out: &mut String) -> Result<(), Stop> {
    match fault {
        StoreFault::Failed => out.push_str("failed")?,
        StoreFault::BadState { table } => write!(out, "bad state {table}")?,
        StoreFault::Memory => out.push_str("no memory")?,
    }
    Ok(())
}

fn write_bucket(bucket: &BucketState, out: &mut String) -> Result<(), Stop> {
    write!(
        out,
        "bucket {} {} {}",
        bucket.name.as_str(),
        bucket.position.0,
        bucket.added.0
    )?;
    'held: for held in bucket.held.as_slice() {
        write!(
            out,
            " ({} {} {} {} {} {})",
            held.key.kind.as_str(),
            held.key.id.as_str(),
            held.key.subkey.as_str(),
            held.id.0,
            held.content.as_str(),
            held.sum.0
        )?;
    }
    Ok(out.push_str("; ")?)
}

fn write_change(change: &Change, out: &mut String) -> Result<(), Stop> {
    let done = if change.row.is_some() {
        "put"
    } else {
        "delete"
    };
    write!(
        out,
        "{done} {} {}; ",
        change.table.as_str(),
        change.id.as_str()
    )?;
    Ok(())
}

fn write_target(target: Target, out: &mut String) -> Result<(), Stop> {
    match target {
        Target::Free => out.push_str("free")?,
        Target::Pending => out.push_str("pending")?,
        Target::Number(number) => write!(out, "number {number}")?,
    }
    Ok(())
}

fn write_row(row: &Shown, out: &mut String) -> Result<(), Stop> {
    write!(
        out,
        "; {} {} {}",
        row.kind.as_str(),
        row.id.as_str(),
        row.content.as_str()
    )?;
    Ok(())
}

/// Writes a state.
pub fn write_state(state: &State, out: &mut String) -> Result<(), Stop> {
    'buckets: for bucket in state.buckets.as_slice() {
        write_bucket(bucket, out)?;
    }
    'queue: for change in state.queue.as_slice() {
        write_change(change, out)?;
    }
    write_target(state.target, out)?;
    'shown: for row in state.shown.as_slice() {
        write_row(row, out)?;
    }
    Ok(())
}

/// Writes the rows of a client.
pub fn write_rows<K: Keeper>(
    alloc: Global,
    client: &Client<K>,
    out: &mut String,
) -> Result<(), Stop> {
    let rows = client.rows(alloc)?;
    write!(out, "rows {}", rows.len())?;
    'rows: for row in rows.as_slice() {
        write_row(row, out)?;
    }
    Ok(())
}

fn write_value(row: &Row, at: usize, out: &mut String) -> Result<(), Stop> {
    match row.get_ref(at)? {
        ValueRef::Int(number) => write!(out, " {number}")?,
        ValueRef::Text(bytes) => write!(out, " {}", str::from_utf8(bytes)?)?,
        _ => out.push_str(" ?")?,
    }
    Ok(())
}

fn write_table(name: &str, rows: &[Row], out: &mut String) -> Result<(), Stop> {
    write!(out, "{name}:")?;
    'rows: for row in rows {
        'columns: for at in 0..row.column_count() {
            write_value(row, at, out)?;
        }
        out.push_str(",")?;
    }
    Ok(out.push_str("; ")?)
}

/// Writes the rows of all tables.
pub fn write_tables<S: Alter>(
    connection: &mut Connection<S>,
    out: &mut String,
) -> Result<(), Stop> {
    write_table("buckets", read_buckets(connection)?.as_slice(), out)?;
    write_table("entries", read_entries(connection)?.as_slice(), out)?;
    write_table("queue", read_queue(connection)?.as_slice(), out)?;
    write_table("aim", read_aim(connection)?.as_slice(), out)?;
    write_table("shown", read_shown(connection)?.as_slice(), out)
}
