//! Looks up the buckets of askers, for `bench/lookups` to time: `lookups PATH ROWS COUNT` notes ROWS rows of `lists`, of
//! which each ten have one owner, and then looks up the buckets of COUNT owners by the to-do rules. With `path` the condition
//! reaches rows by their owner, with `walk` it is written so that it does not. Prints how many buckets were found in all.

ghost use Rattle.std.specs.Prelude.{◌≡◌, ◌≤◌, IfSome};

use crate::shared::{TO_DO, asker, rules_of};
use case_words::number_in;
use ps_changes::read_change;
use ps_data::{Memory, Position, Text};
use ps_definitions::Rules;
use ps_params::ParameterIndex;
use ps_rows::Change;
use ps_sql_eval::Asker;
use std::alloc::Global;
use std::io;

const BY_NO_COLUMN: &str =
    "bucket_definitions:\n  list_todos:\n    parameters: SELECT id AS list_id FROM lists WHERE upper(owner_id) = request.user_id()\n    data:\n      - SELECT id FROM todos WHERE list_id = bucket.list_id\n";

// The rules that a word asks for.
fn rules_text(work: &str) -> Option<&'static str> {
    match work {
        "path" => Some(TO_DO),
        "walk" => Some(BY_NO_COLUMN),
        _ => None,
    }
}

// A row of `lists`, of the owner of ten.
fn list_row(alloc: Global, number: u64) -> Result<String, Memory> {
    let owner = number / 10;
    Ok(format!(in alloc;
        "{{\"op\":\"PUT\",\"table\":\"lists\",\"id\":\"l{number}\",\"row\":{{\"owner_id\":\"U{owner}\",\"name\":\"a list\"}}}}"
    )?)
}

// Notes a row, if there is memory.
fn note(alloc: Global, index: &mut ParameterIndex, number: u64) -> Option<()>
    requires { index.old.last ≤ 1 }
    ensures last { index.new.last ≤ 1 }
    ensures rules { index.new.rules ≡ index.old.rules }
    ensures kept { index.new.forgotten ≡ index.old.forgotten }
{
    let line = list_row(alloc, number).ok()?;
    let Change { table, id, row } = read_change(alloc, line.as_bytes()).ok()?;
    index.reserve(alloc, 1).ok()?;
    index.note_row(Position(1), table, id, row);
    Some(())
}

// An index of so many rows.
fn noted(alloc: Global, rules: &Rules, rows: u64) -> Option<ParameterIndex>
    ensures last { IfSome result (λ index. index.last ≤ 1) }
    ensures rules { IfSome result (λ index. index.rules ≡ rules.now) }
    ensures kept { IfSome result (λ index. index.forgotten ≡ 0) }
{
    let mut index = ParameterIndex::new(alloc, rules).ok()?;
    'rows: for number in 0..rows {
        note(alloc, &mut index, number)?;
    }
    index.reserve(alloc, 0).ok()?;
    Some(index)
}

// The owner with a number asks.
fn owner_asks(alloc: Global, number: u64) -> Result<Asker, Memory> {
    asker(alloc, Text::from_string(format!(in alloc; "U{number}")?))
}

// How many buckets so many owners have.
fn look_up(
    alloc: Global,
    index: &ParameterIndex,
    rules: &Rules,
    rows: u64,
    count: u64,
) -> Option<u64>
    requires rules { rules.now ≡ index.now.rules }
    requires kept { index.now.forgotten ≡ 0 }
{
    let owners = rows / 10;
    let mut found = 0u64;
    'owners: for number in 0..count {
        let owner = if owners == 0 {
            0
        } else {
            number.wrapping_mul(7919) % owners
        };
        let asker = owner_asks(alloc, owner).ok()?;
        let names = index.rows_for(alloc, rules, &asker, Position(1)).ok()?;
        found = found.wrapping_add(names.len() as u64);
    }
    Some(found)
}

// What is found where the words ask for it, if they are such words and there is memory.
fn found_for(alloc: Global, work: &str, rows: &str, count: &str) -> Option<u64> {
    let rows = number_in(rows).ok()?;
    let count = number_in(count).ok()?;
    let rules = rules_of(alloc, rules_text(work)?)?;
    let index = noted(alloc, &rules, rows)?;
    look_up(alloc, &index, &rules, rows, count)
}

/// Prints how many buckets were found.
pub(crate) fn answer(rt: HostRuntime, words: &[&str]) -> io::Result<()> {
    let [work, rows, count] = words else {
        return println!(rt; "usage: lookups path|walk ROWS COUNT");
    };
    match found_for(rt.alloc(), work, rows, count) {
        Some(found) => println!(rt; "{found}"),
        None => println!(rt; "nothing"),
    }
}
