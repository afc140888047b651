//! A database in memory, and a client over it that is opened for each step.

use crate::events::{write_done, write_event, write_fault};
use crate::shown::{write_rows, write_state, write_store_fault, write_tables};
use case_words::{Stop, number_in};
use ps_changes::read_change;
use ps_client::Client;
use ps_client_log::Keeper;
use ps_client_sqlite::{SqliteKeeper, StoreFault};
use ps_data::{GREATEST, Text};
use ps_lines::write_body;
use sqlite::{Alter, Connection, MemStore};
use std::alloc::Global;

/// A database in memory, where one is open.
#[derive(Drop)]
pub struct Desk {
    connection: Option<Connection<MemStore>>,
}

fn write_request<K: Keeper>(
    alloc: Global,
    client: &mut Client<K>,
    out: &mut String,
) -> Result<(), Stop> {
    let body = client.request(alloc)?;
    let bytes = write_body(alloc, &body)?;
    Ok(out.push_str(str::from_utf8(bytes.as_slice())?)?)
}

fn write_taken<K: Keeper>(
    alloc: Global,
    client: &mut Client<K>,
    line: &str,
    out: &mut String,
) -> Result<(), Stop> {
    out.push_str("; ")?;
    match client.take_line(alloc, line.as_bytes()) {
        Ok(event) => write_event(&event, out),
        Err(fault) => write_fault(fault, out),
    }
}

fn write_stream<K: Keeper>(
    alloc: Global,
    client: &mut Client<K>,
    lines: &str,
    out: &mut String,
) -> Result<(), Stop> {
    write_request(alloc, client, out)?;
    'lines: for line in lines.split(' ') {
        write_taken(alloc, client, line, out)?;
    }
    Ok(())
}

fn write_locally<K: Keeper>(
    alloc: Global,
    client: &mut Client<K>,
    change: &str,
    out: &mut String,
) -> Result<(), Stop> {
    match read_change(alloc, change.as_bytes()) {
        Ok(change) => write_done(client.write_local(alloc, change), out),
        Err(_) => Err("this is no change".into()),
    }
}

fn write_upload<K: Keeper>(
    alloc: Global,
    client: &Client<K>,
    out: &mut String,
) -> Result<(), Stop> {
    match client.upload_next(alloc)? {
        Some(body) => Ok(out.push_str(str::from_utf8(body.as_slice())?)?),
        None => Ok(out.push_str("none")?),
    }
}

fn write_number<K: Keeper>(
    alloc: Global,
    client: &mut Client<K>,
    number: &str,
    out: &mut String,
) -> Result<(), Stop> {
    let number = number_in(number)?;
    if number > GREATEST {
        return Err("the number is too great".into());
    }
    write_done(client.set_write_checkpoint(alloc, number), out)
}

/// Takes a step of a client.
pub fn write_step<K: Keeper>(
    alloc: Global,
    client: &mut Client<K>,
    word: &str,
    rest: &str,
    out: &mut String,
) -> Result<(), Stop> {
    match word {
        "stream" => write_stream(alloc, client, rest, out),
        "local" => write_locally(alloc, client, rest, out),
        "upload" => write_upload(alloc, client, out),
        "uploaded" => write_done(client.uploaded(alloc), out),
        "number" => write_number(alloc, client, rest, out),
        "rows" => write_rows(alloc, client, out),
        _ => Err("no such step".into()),
    }
}

/// A client over a keeper.
pub fn opened<K: Keeper + Drop>(alloc: Global, keeper: K) -> Result<Client<K>, Stop> {
    let name = Text::from_str(alloc, "c")?;
    match Client::open(alloc, keeper, name) {
        Ok(client) => Ok(client),
        Err((_keeper, _fault)) => Err("the keeper does not load".into()),
    }
}

fn write_told<S: Alter + Drop>(
    alloc: Global,
    keeper: SqliteKeeper<S>,
    word: &str,
    rest: &str,
    out: &mut String,
) -> Result<Connection<S>, Stop> {
    if word == "state" {
        let mut keeper = keeper;
        match keeper.load(alloc) {
            Ok(state) => write_state(&state, out)?,
            Err(_fault) => return Err("the keeper does not load".into()),
        }
        return Ok(keeper.into_connection());
    }
    let mut client = opened(alloc, keeper)?;
    write_step(alloc, &mut client, word, rest, out)?;
    Ok(client.close().into_connection())
}

fn begun(alloc: Global, out: &mut String) -> Result<Connection<MemStore>, Stop> {
    let connection = Connection::open_in_memory(alloc)?;
    match SqliteKeeper::open(alloc, connection) {
        Ok(keeper) => {
            out.push_str("open")?;
            Ok(keeper.into_connection())
        }
        Err(_fault) => Err("no database is opened".into()),
    }
}

// Runs a statement, and opens the tables again. Where they are not opened, the database is gone.
fn write_opened(
    alloc: Global,
    connection: Connection<MemStore>,
    text: &str,
    out: &mut String,
) -> Result<Option<Connection<MemStore>>, Stop> {
    let mut connection = connection;
    connection.execute_batch(text)?;
    match SqliteKeeper::open(alloc, connection) {
        Ok(keeper) => {
            out.push_str("open")?;
            Ok(Some(keeper.into_connection()))
        }
        Err(fault) => {
            write_store_fault(fault, out)?;
            Ok(None)
        }
    }
}

// Takes a step on an open database.
fn stepped(
    alloc: Global,
    connection: Connection<MemStore>,
    word: &str,
    rest: &str,
    out: &mut String,
) -> Result<Option<Connection<MemStore>>, Stop> {
    let mut connection = connection;
    match word {
        "sql" => write_opened(alloc, connection, rest, out),
        "tables" => {
            write_tables(&mut connection, out)?;
            Ok(Some(connection))
        }
        _ => match SqliteKeeper::open(alloc, connection) {
            Ok(keeper) => Ok(Some(write_told(alloc, keeper, word, rest, out)?)),
            Err(fault) => {
                write_store_fault(fault, out)?;
                Ok(None)
            }
        },
    }
}

impl Desk {
    /// No database is open.
    pub fn new() -> Desk {
        Desk { connection: None }
    }

    /// Takes a step.
    pub fn step(
        &mut self,
        alloc: Global,
        word: &str,
        rest: &str,
        out: &mut String,
    ) -> Result<(), Stop> {
        if word == "new" {
            self.connection = Some(begun(alloc, out)?);
            return Ok(());
        }
        let Some(connection) = self.connection.take() else {
            return Err("no database is open".into());
        };
        self.connection = stepped(alloc, connection, word, rest, out)?;
        Ok(())
    }
}
