//! Change lines by chance.

ghost use Rattle.std.specs.Prelude.{IfOk, OnOk};
ghost use Rattle.ps_core.specs.Scripts.{AreLow};

use crate::chance::Chance;
use crate::stops::Stop;
use ps_changes::read_line;
use ps_data::GREATEST;
use ps_rows::Transaction;
use std::alloc::Global;

fn push_list(chance: &mut Chance, out: &mut String) -> Result<(), Stop> {
    let id = chance.below(3);
    let owner = match chance.below(5) {
        0 | 1 => "ann",
        2 | 3 => "bob",
        _ => "eve",
    };
    Ok(write!(
        out,
        "\"table\":\"lists\",\"id\":\"l{id}\",\"row\":{{\"owner\":\"{owner}\"}}}}"
    )?)
}

fn push_todo(chance: &mut Chance, out: &mut String) -> Result<(), Stop> {
    let (id, list, size) = (chance.below(4), chance.below(3), chance.below(10));
    Ok(write!(
        out,
        "\"table\":\"todos\",\"id\":\"{id}\",\"row\":{{\"list\":\"l{list}\",\"n\":{size}}}}}"
    )?)
}

fn push_note(chance: &mut Chance, out: &mut String) -> Result<(), Stop> {
    let (id, list, todo) = (chance.below(2), chance.below(3), chance.below(4));
    Ok(write!(
        out,
        "\"table\":\"notes\",\"id\":\"n{id}\",\"row\":{{\"list\":\"l{list}\",\"v\":{todo}}}}}"
    )?)
}

/// Adds a change of a list, a todo or a note. Two in five delete.
pub fn push_change(chance: &mut Chance, out: &mut String) -> Result<(), Stop> {
    let op = if chance.below(5) == 0 {
        "DELETE"
    } else {
        "PUT"
    };
    write!(out, "{{\"op\":\"{op}\",")?;
    match chance.below(10) {
        0 | 1 | 2 => push_list(chance, out),
        3 | 4 | 5 | 6 | 7 => push_todo(chance, out),
        _ => push_note(chance, out),
    }
}

fn push_changes(chance: &mut Chance, out: &mut String) -> Result<(), Stop> {
    let count = chance.below(5);
    'changes: for index in 0..count {
        if index != 0 {
            out.push_str(",")?;
        }
        push_change(chance, out)?;
    }
    Ok(())
}

// The transaction at a position, of up to four changes.
fn transaction(alloc: Global, chance: &mut Chance, position: u64) -> Result<Transaction, Stop> {
    let mut line = String::new(alloc);
    write!(line, "{{\"pos\":\"{position}\",\"changes\":[")?;
    push_changes(chance, &mut line)?;
    line.push_str("]}")?;
    Ok(read_line(alloc, line.as_str().as_bytes())?)
}

// Puts a transaction behind others.
fn push_transaction(all: &mut Vec<Transaction>, transaction: Transaction) -> Result<(), Stop>
    requires { AreLow all.old.items }
    ensures { OnOk result (AreLow all.new.items) }
{
    if GREATEST < transaction.position.0 {
        return Err(Stop::Broken);
    }
    Ok(all.push(transaction)?)
}

/// So many transactions, whose positions rise by 1 to `gap`.
pub fn transactions(
    alloc: Global,
    chance: &mut Chance,
    count: u64,
    gap: u64,
) -> Result<Vec<Transaction>, Stop>
    ensures { IfOk result (λ all. AreLow all.items) }
{
    let mut all = Vec::new(alloc);
    let mut position: u64 = 0;
    'transactions: for _ in 0..count {
        position = position.wrapping_add(1).wrapping_add(chance.below(gap));
        let next = transaction(alloc, chance, position)?;
        push_transaction(&mut all, next)?;
    }
    Ok(all)
}
