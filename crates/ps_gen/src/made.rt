//! Made rules and made transactions.

ghost use Rattle.std.specs.Prelude.{◌≡◌, ◌++◌, IfOk, decimal as digits_of};
ghost use Rattle.ps_gen.specs.Made.{made_change, made_columns, made_input, made_rules, made_transaction};

use ps_data::{Column, Items, Memory, Position, Text, Value};
use ps_rows::{Change, Row, Transaction};
use std::alloc::Global;

const RULES: &str =
    "bucket_definitions:\n  mine:\n    parameters: SELECT request.user_id() AS u\n    data:\n      - SELECT * FROM items WHERE owner = bucket.u\n";

/// The text of the made rules (docs/FORMATS.md, "Made input"): one definition, whose buckets hold the items of one owner each.
pub fn make_rules(alloc: Global) -> Result<Vec<u8>, Memory>
    ensures { IfOk result (λ bytes. bytes.items ≡ made_rules) }
{
    let mut bytes = Vec::new(alloc);
    bytes.extend_from_slice(RULES.as_bytes())?;
    Ok(bytes)
}

// A text and a number behind it.
fn numbered(alloc: Global, text: &str, number: u64) -> Result<Text, Memory>
    ensures { IfOk result (λ made. made ≡ text.now ++ digits_of number) }
{
    Ok(Text::from_string(format!(in alloc; "{text}{number}")?))
}

// The columns of an item.
fn columns_at(alloc: Global, at: u32) -> Result<Items<Column>, Memory>
    ensures { IfOk result (λ columns. columns ≡ made_columns at) }
{
    let mut columns = Items::new(alloc);
    columns.push(Column {
        name: Text::from_str(alloc, "n")?,
        value: Value::Int(i64::from(at)),
    })?;
    columns.push(Column {
        name: Text::from_str(alloc, "owner")?,
        value: Value::Text(numbered(alloc, "u", u64::from(at) % 7)?),
    })?;
    Ok(columns)
}

// The change at a position: one in five deletes an item, the others put one.
fn change_at(alloc: Global, at: u32) -> Result<Change, Memory>
    ensures { IfOk result (λ change. change ≡ made_change at) }
{
    let table = Text::from_str(alloc, "items")?;
    if at % 5 == 0 {
        let id = numbered(alloc, "r", 3 * u64::from(at) % 97)?;
        return Ok(Change {
            table,
            id,
            row: None,
        });
    }
    let id = numbered(alloc, "r", u64::from(at) % 97)?;
    let row = Some(Row::from_columns(columns_at(alloc, at)?));
    Ok(Change { table, id, row })
}

// The transaction at a position.
fn transaction_at(alloc: Global, at: u32) -> Result<Transaction, Memory>
    ensures { IfOk result (λ transaction. transaction ≡ made_transaction at) }
{
    let mut changes = Items::new(alloc);
    changes.push(change_at(alloc, at)?)?;
    Ok(Transaction {
        position: Position(u64::from(at)),
        changes,
    })
}

/// The made transactions at the positions 1 to `count` (docs/FORMATS.md, "Made input"), each with one change of the table `items`.
pub fn make_input(alloc: Global, count: u32) -> Result<Items<Transaction>, Memory>
    ensures { IfOk result (λ transactions. transactions ≡ made_input count) }
{
    let mut transactions = Items::new(alloc);
    let mut done = 0;
    'positions: while done < count {
        done += 1;
        transactions.push(transaction_at(alloc, done)?)?;
    }
    Ok(transactions)
}
