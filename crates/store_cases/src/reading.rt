//! Transactions, as the cases write them.

ghost use Rattle.std.specs.Prelude.{◌≤◌, IfOk};
ghost use Rattle.ps_store.specs.Limits.{greatest};

use case_words::{Stop, number_in};
use ps_rows::Transaction;
use std::alloc::Global;

// Adds the numbers from 1 on, with commas between.
fn push_numbers(text: &mut String, count: &str) -> Result<(), Stop> {
    'numbers: for before in 0..number_in(count)? {
        if before != 0 {
            text.push_str(",")?;
        }
        write!(text, "{}", before.wrapping_add(1))?;
    }
    Ok(())
}

// A line in which `~N~` has become the numbers from 1 to N.
fn spread(alloc: Global, line: &str) -> Result<String, Stop> {
    let mut text = String::new(alloc);
    'parts: for (index, part) in line.split('~').enumerate() {
        if index % 2 == 0 {
            text.push_str(part)?;
        } else {
            push_numbers(&mut text, part)?;
        }
    }
    Ok(text)
}

/// The transaction of a change line, in which `~N~` stands for the numbers from 1 to N.
pub fn transaction_of(alloc: Global, line: &str) -> Result<Transaction, Stop>
    ensures { IfOk result (λ transaction. transaction.position.0 ≤ greatest) }
{
    let line = spread(alloc, line)?;
    case_stores::transaction_of(alloc, line.as_str())
}
