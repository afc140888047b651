//! Transactions and askers, as the cases have them.

use case_words::Stop;
use ps_changes::read_line;
use ps_data::{Items, Memory, Text};
use ps_rows::Transaction;
use ps_sql_eval::Asker;
use std::alloc::Global;

/// The transactions of a text's lines.
pub fn transactions_of(alloc: Global, text: &str) -> Result<Items<Transaction>, Stop> {
    let mut all = Items::new(alloc);
    'lines: for line in text.lines() {
        all.push(read_line(alloc, line.as_bytes())?)?;
    }
    Ok(all)
}

/// A user with parameters.
pub fn asker_of(alloc: Global, user: &str, parameters: &str) -> Result<Asker, Memory> {
    Ok(Asker {
        user: Text::from_str(alloc, user)?,
        payload: Text::from_str(alloc, "{}")?,
        parameters: Text::from_str(alloc, parameters)?,
        client: None,
    })
}
