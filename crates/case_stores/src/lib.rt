//! Rules, limits and transactions, as the programs of cases write them.
#![tactic(auto)]

ghost use Rattle.std.specs.Prelude.{◌≤◌, IfOk, IsTrue};
ghost use Rattle.ps_store.specs.Limits.{greatest, AreWithin};

use case_words::{Stop, cut, number_in, short_number_in};
use ps_changes::read_line;
use ps_data::{GREATEST, Memory};
use ps_definitions::Rules;
use ps_rows::Transaction;
use ps_rules::read_rules;
use ps_store::Limits;
use std::alloc::Global;

/// The rules of a text.
pub fn rules_of(alloc: Global, text: &str) -> Result<Rules, Stop> {
    if 1048576 < text.len() {
        return Err(Memory)?;
    }
    Ok(read_rules(alloc, text.as_bytes())?)
}

// A limit of generations, the usual one where there is no word.
fn generations_in(word: &str) -> Result<u32, Stop> {
    if word.is_empty() {
        return Ok(1_000_000);
    }
    short_number_in(word)
}

// The limits that five numbers say, and a sixth for generations where there is one.
fn limits_read(words: &str) -> Result<Limits, Stop> {
    let (ops, words) = cut(words);
    let (numbers, words) = cut(words);
    let (positions, words) = cut(words);
    let (buckets, words) = cut(words);
    let (entries, generations) = cut(words);
    Ok(Limits {
        ops: number_in(ops)?,
        numbers: number_in(numbers)?,
        positions: number_in(positions)?,
        buckets: short_number_in(buckets)?,
        entries: short_number_in(entries)?,
        generations: generations_in(generations)?,
    })
}

// Whether no limit is above the usual one.
fn are_within(limits: &Limits) -> bool
    ensures { IsTrue result → AreWithin limits.now }
{
    limits.ops <= GREATEST
        && limits.numbers <= GREATEST
        && limits.positions <= GREATEST
        && limits.buckets <= 1000
        && limits.entries <= 1000
        && limits.generations <= 1_000_000
}

/// The limits that five or six numbers say, in the order of their names in `Limits`; the usual one for generations where there is
/// no sixth, and the usual ones where there is no word.
pub fn limits_of(words: &str) -> Result<Limits, Stop>
    ensures { IfOk result AreWithin }
{
    if words.is_empty() {
        return Ok(Limits::usual());
    }
    let limits = limits_read(words)?;
    if are_within(&limits) {
        Ok(limits)
    } else {
        Err("a limit above the usual one")?
    }
}

/// The transaction of a change line, at a position that a store can take.
pub fn transaction_of(alloc: Global, line: &str) -> Result<Transaction, Stop>
    ensures { IfOk result (λ transaction. transaction.position.0 ≤ greatest) }
{
    Ok(read_line(alloc, line.as_bytes())?)
}
