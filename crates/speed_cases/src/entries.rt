//! Finds the entries of a row over and over, for `bench/entries` to time: `entries WORK ELEMENTS COUNT` finds those of
//! one row COUNT times. Of the to-do rules the row is one of `lists`, `todos` or `settings`, and ELEMENTS says nothing. All
//! other rows have lists of ELEMENTS numbers: `one` takes a parameter from a list; `common` takes it from three lists that
//! have one number in common; `product` takes three parameters from three lists; `nothing` takes three parameters from two
//! lists and an empty one. Prints how many entries were found in all, and how often there were more than 1,000.

use crate::shared::{TO_DO, rules_of};
use case_words::{number_in, short_number_in};
use ps_bucket_eval::{PlaceFault, entries_of_row};
use ps_changes::read_change;
use ps_data::{Memory, Text};
use ps_definitions::Rules;
use ps_rows::{Change, Row};
use std::alloc::Global;
use std::io;

const ONE: &str =
    "bucket_definitions:\n  d:\n    parameters: SELECT a FROM members\n    data: SELECT id FROM t WHERE bucket.a IN l\n";

const COMMON: &str =
    "bucket_definitions:\n  d:\n    parameters: SELECT a FROM members\n    data: SELECT id FROM t WHERE bucket.a IN l AND bucket.a IN m AND bucket.a IN n\n";

const PRODUCT: &str =
    "bucket_definitions:\n  d:\n    parameters: SELECT a, b, c FROM members\n    data: SELECT id FROM t WHERE bucket.a IN l AND bucket.b IN m AND bucket.c IN n\n";

const NOTHING: &str =
    "bucket_definitions:\n  d:\n    parameters: SELECT a, b, c FROM members\n    data: SELECT id FROM t WHERE bucket.a IN l AND bucket.b IN m AND bucket.c IN none\n";

// The rules that a word asks for.
fn rules_text(work: &str) -> Option<&'static str> {
    match work {
        "lists" | "todos" | "settings" => Some(TO_DO),
        "one" => Some(ONE),
        "common" => Some(COMMON),
        "product" => Some(PRODUCT),
        "nothing" => Some(NOTHING),
        _ => None,
    }
}

// A JSON array of numbers from one on.
fn numbers(alloc: Global, first: u32, count: u32) -> Result<String, Memory> {
    let mut list = format!(in alloc; "[{first}")?;
    'numbers: for behind in 1..count {
        write!(list, ",{}", first.wrapping_add(behind))?;
    }
    list.push_str("]")?;
    Ok(list)
}

// A row with three lists, of which the first ends with the number with which the two others begin, and an empty one.
fn row_of_lists(alloc: Global, elements: u32) -> Result<String, Memory> {
    let low = numbers(alloc, 0, elements)?;
    let high = numbers(alloc, elements.wrapping_sub(1), elements)?;
    let (low, high) = (low.as_str(), high.as_str());
    Ok(format!(in alloc;
        "{{\"op\":\"PUT\",\"table\":\"t\",\"id\":\"x\",\"row\":{{\"l\":{low},\"m\":{high},\"n\":{high},\"none\":[]}}}}"
    )?)
}

// The row that a word asks for.
fn change_text(alloc: Global, work: &str, elements: u32) -> Result<String, Memory> {
    let line = match work {
        "lists" => {
            r#"{"op":"PUT","table":"lists","id":"l1","row":{"owner_id":"ann","name":"Home"}}"#
        }
        "todos" => {
            r#"{"op":"PUT","table":"todos","id":"t1","row":{"list_id":"l1","title":"milk and bread","done":false,"created":"2024-01-01"}}"#
        }
        "settings" => {
            r#"{"op":"PUT","table":"settings","id":"s1","row":{"name":"theme","value":{"dark":true}}}"#
        }
        _ => return row_of_lists(alloc, elements),
    };
    Ok(String::from_str(alloc, line)?)
}

// How many entries were found, and how often there were too many.
#[derive(Drop)]
struct Found {
    entries: u64,
    wide: u64,
}

// What is found so many times on a row; None where it is out of memory.
fn find(
    alloc: Global,
    rules: &Rules,
    table: &Text,
    id: &Text,
    row: &Row,
    count: u64,
) -> Option<Found> {
    let (mut entries, mut wide): (u64, u64) = (0, 0);
    'times: for _ in 0..count {
        match entries_of_row(alloc, rules, table, id, row, 1000) {
            Ok(placed) => entries = entries.wrapping_add(placed.len() as u64),
            Err(PlaceFault::TooWide { count: _ }) => wide = wide.wrapping_add(1),
            Err(PlaceFault::Memory) => return None,
        }
    }
    Some(Found { entries, wide })
}

// What is found where the words ask for it, if they are such words and there is memory.
fn found_for(alloc: Global, work: &str, elements: &str, count: &str) -> Option<Found> {
    let elements = short_number_in(elements).ok()?;
    let count = number_in(count).ok()?;
    let rules = rules_of(alloc, rules_text(work)?)?;
    let line = change_text(alloc, work, elements).ok()?;
    let Change { table, id, row } = read_change(alloc, line.as_bytes()).ok()?;
    let row = row?;
    find(alloc, &rules, &table, &id, &row, count)
}

/// Prints how many entries were found, and how often there were too many.
pub(crate) fn answer(rt: HostRuntime, words: &[&str]) -> io::Result<()> {
    let [work, elements, count] = words else {
        return println!(rt;
            "usage: entries lists|todos|settings|one|common|product|nothing ELEMENTS COUNT"
        );
    };
    match found_for(rt.alloc(), work, elements, count) {
        Some(found) => println!(rt; "{} {}", found.entries, found.wide),
        None => println!(rt; "nothing"),
    }
}
