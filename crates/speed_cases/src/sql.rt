//! Reads a hostile query, for `bench/sql` to time: `sql SHAPE COUNT STEP STACK` makes a data query whose
//! condition has COUNT brackets, NOTs or operators, and goes as far as STEP says, in a thread with STACK bytes of
//! stack. Prints what came of it.

use crate::shared::nested;
use case_words::short_number_in;
use ps_data::{Memory, Text};
use ps_queries::DataQuery;
use ps_sql::read_data_query;
use std::alloc::Global;
use std::thread::Threads;
use std::{io, thread};

// How a condition is nested.
#[derive(Clone, Copy)]
enum Shape {
    // `((a))`
    Brackets,
    // `((`
    Open,
    // `NOT NOT a`
    Nots,
    // `a=a=a`
    Chain,
    // `upper(upper(a))`
    Calls,
}

// How far the work goes.
#[derive(Clone, Copy)]
enum Work {
    // The text is made.
    Text,
    // It is read too, and what was read is dropped.
    Read,
    // What was read is copied too, and the copy is dropped.
    Copy,
}

fn shape_of(word: &str) -> Option<Shape> {
    match word {
        "brackets" => Some(Shape::Brackets),
        "open" => Some(Shape::Open),
        "nots" => Some(Shape::Nots),
        "chain" => Some(Shape::Chain),
        "calls" => Some(Shape::Calls),
        _ => None,
    }
}

fn work_of(word: &str) -> Option<Work> {
    match word {
        "text" => Some(Work::Text),
        "read" => Some(Work::Read),
        "copy" => Some(Work::Copy),
        _ => None,
    }
}

// A query with such a condition.
fn query_text(alloc: Global, shape: Shape, count: u32) -> Result<Text, Memory> {
    let around = match shape {
        Shape::Brackets => ("(", ")"),
        Shape::Open => ("(", ""),
        Shape::Nots => ("NOT ", ""),
        Shape::Chain => ("", "=a"),
        Shape::Calls => ("upper(", ")"),
    };
    nested(alloc, "SELECT a FROM t WHERE ", "a", around, count)
}

// Whether the condition could be copied.
fn is_copied(alloc: Global, query: &DataQuery) -> bool {
    match &query.condition {
        Some(condition) => condition.copy(alloc).is_ok(),
        None => false,
    }
}

fn outcome_of(alloc: Global, shape: Shape, count: u32, work: Work) -> &'static str {
    let Ok(text) = query_text(alloc, shape, count) else {
        return "no memory";
    };
    if text.bytes().len() > 1048576 {
        return "too long";
    }
    if matches!(&work, Work::Text) {
        return "made";
    }
    match read_data_query(alloc, &text) {
        Err(_) => "refused",
        Ok(query) => match work {
            Work::Copy => {
                if is_copied(alloc, &query) {
                    "copied"
                } else {
                    "not copied"
                }
            }
            _ => "read",
        },
    }
}

// What is to be done, and with how many bytes of stack.
#[derive(Clone, Copy)]
struct Task {
    shape: Shape,
    count: u32,
    work: Work,
    stack: u32,
}

// The task of words, if they are such words.
fn task_of(words: &[&str]) -> Option<Task> {
    let [shape, count, work, stack] = words else {
        return None;
    };
    Some(Task {
        shape: shape_of(shape)?,
        count: short_number_in(count).ok()?,
        work: work_of(work)?,
        stack: short_number_in(stack).ok()?,
    })
}

/// Prints what came of the query that the words ask for.
pub(crate) fn answer<T: Threads>(rt: HostRuntime, threads: &T, words: &[&str]) -> io::Result<()> {
    let Some(task) = task_of(words) else {
        return println!(rt; "usage: sql brackets|open|nots|chain|calls COUNT text|read|copy STACK");
    };
    let alloc = rt.alloc();
    let outcome = match thread::Builder::new().stack_size(task.stack as usize).spawn(
        threads,
        move || outcome_of(alloc, task.shape, task.count, task.work),
    ) {
        Ok(handle) => handle.join(threads),
        Err(_) => "no thread",
    };
    println!(rt; "{outcome}")
}
