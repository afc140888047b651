//! Evaluates conditions, for `bench/eval` to time. `eval rate COUNT CONDITION` evaluates a condition, all words to the end of
//! the line, so often on a row of ten columns, and prints how often it held. `eval deep SHAPE COUNT STEP STACK` makes a
//! condition of COUNT brackets, NOTs, operators or calls, and goes as far as STEP says, in a thread with STACK bytes of
//! stack; it prints what came of it.

ghost use Rattle.std.specs.Prelude.{◌≡◌, false};
ghost use Rattle.ps_queries.specs.declared.subjects.Subject.TheVariants as subjects;
ghost use Rattle.ps_queries.specs.Subjects.{speaks};

use crate::shared::nested;
use case_words::{number_in, short_number_in};
use ps_changes::read_change;
use ps_data::{Items, Memory, Text, Truth, Value};
use ps_queries::{Expr, ParameterQuery, Subject};
use ps_rows::{Change, Row};
use ps_sql::read_parameter_query;
use ps_sql_eval::{Asker, eval_request};
use ps_values::truth_of;
use std::alloc::Global;
use std::thread::Threads;
use std::{io, thread};

// How a condition is nested.
#[derive(Clone, Copy)]
enum Shape {
    // `((1))`
    Brackets,
    // `NOT NOT 1`
    Nots,
    // `1=1=1`
    Chain,
    // `(1=(1=1))`
    Right,
    // `1||1||1`
    Joins,
    // `length(length(1))`
    Calls,
}

// How far the work goes.
#[derive(Clone, Copy)]
enum Work {
    // The condition is read.
    Read,
    // It is evaluated too.
    Evaluate,
}

fn shape_of(word: &str) -> Option<Shape> {
    match word {
        "brackets" => Some(Shape::Brackets),
        "nots" => Some(Shape::Nots),
        "chain" => Some(Shape::Chain),
        "right" => Some(Shape::Right),
        "joins" => Some(Shape::Joins),
        "calls" => Some(Shape::Calls),
        _ => None,
    }
}

fn work_of(word: &str) -> Option<Work> {
    match word {
        "read" => Some(Work::Read),
        "evaluate" => Some(Work::Evaluate),
        _ => None,
    }
}

// A query with a condition that is nested so.
fn query_text(alloc: Global, shape: Shape, count: u32) -> Result<Text, Memory> {
    let around = match shape {
        Shape::Brackets => ("(", ")"),
        Shape::Nots => ("NOT ", ""),
        Shape::Chain => ("", "=1"),
        Shape::Right => ("(1=", ")"),
        Shape::Joins => ("", "||1"),
        Shape::Calls => ("length(", ")"),
    };
    nested(alloc, "SELECT 1 AS x WHERE ", "1", around, count)
}

// The asker of the worked rules, with a parameter.
fn asker(alloc: Global) -> Result<Asker, Memory> {
    Ok(Asker {
        user: Text::from_str(alloc, "ann")?,
        payload: Text::from_str(alloc, r#"{"sub":"ann"}"#)?,
        parameters: Text::from_str(alloc, r#"{"k":1}"#)?,
        client: None,
    })
}

// The value of an expression for that asker, unless it speaks of a bucket.
fn value_of(
    alloc: Global,
    expr: &Expr,
    asker: &Asker,
    id: &Text,
    row: &Row,
) -> Result<Option<Value>, Memory> {
    if expr.speaks_of(Subject::Bucket) {
        return Ok(None);
    }
    Ok(Some(eval_request(alloc, expr, asker, id, row)?))
}

// What the condition of a query without FROM gives.
fn outcome_of_query(alloc: Global, query: &ParameterQuery) -> Result<&'static str, Memory> {
    let Some(condition) = &query.condition else {
        return Ok("no condition");
    };
    let id = Text::from_string(String::new(alloc));
    let row = Row::from_columns(Items::new(alloc));
    match value_of(alloc, condition, &asker(alloc)?, &id, &row)? {
        None => Ok("a bucket's"),
        Some(Value::Null) => Ok("null"),
        Some(Value::Int(_)) => Ok("integer"),
        Some(Value::Text(_)) => Ok("text"),
    }
}

fn outcome_of(alloc: Global, shape: Shape, count: u32, work: Work) -> &'static str {
    let Ok(text) = query_text(alloc, shape, count) else {
        return "no memory";
    };
    if text.bytes().len() > 1048576 {
        return "too long";
    }
    match read_parameter_query(alloc, &text) {
        Err(_) => "refused",
        Ok(query) => match work {
            Work::Read => "read",
            Work::Evaluate => outcome_of_query(alloc, &query).unwrap_or("no memory"),
        },
    }
}

// How often a condition holds, of so many times.
fn times_held(
    alloc: Global,
    count: u64,
    condition: &Expr,
    asker: &Asker,
    id: &Text,
    row: &Row,
) -> Option<u64>
    requires { speaks subjects.Bucket condition.now ≡ false }
{
    let mut held: u64 = 0;
    'times: for _ in 0..count {
        let value = eval_request(alloc, condition, asker, id, row).ok()?;
        if truth_of(&value) == Truth::True {
            held = held.wrapping_add(1);
        }
    }
    Some(held)
}

// A query with the condition that has these words.
fn query_of(alloc: Global, condition: &[&str]) -> Result<String, Memory> {
    let mut query = String::from_str(alloc, "SELECT 1 AS x FROM t WHERE")?;
    'words: for word in condition {
        write!(query, " {word}")?;
    }
    Ok(query)
}

// The condition that is written so, if it is one.
fn condition_of(alloc: Global, condition: &[&str]) -> Option<Expr> {
    let text = query_of(alloc, condition).ok()?;
    if text.len() > 1048576 {
        return None;
    }
    let query = read_parameter_query(alloc, &Text::from_string(text)).ok()?;
    query.condition.as_ref()?.copy(alloc).ok()
}

// A row of ten columns, with its id.
fn worked_row(alloc: Global) -> Option<(Text, Row)> {
    let Change { table: _, id, row } = read_change(
        alloc,
        br#"{"op":"PUT","table":"t","id":"t1","row":{"created":"2024-01-01","done":false,"k":1,"list_id":"l1","members":["bob","ann"],"name":"Home","owner_id":"ann","priority":3,"title":"milk and bread","updated":null}}"#,
    )
    .ok()?;
    match row {
        Some(row) => Some((id, row)),
        None => None,
    }
}

// How often a condition holds on that row, of so many times.
fn held_on_row(alloc: Global, count: u64, condition: &Expr) -> Option<u64>
    requires { speaks subjects.Bucket condition.now ≡ false }
{
    let (id, row) = worked_row(alloc)?;
    let asker = asker(alloc).ok()?;
    times_held(alloc, count, condition, &asker, &id, &row)
}

// The same for as many times as a word says, if it is such a word.
fn held(alloc: Global, count: &str, condition: &[&str]) -> Option<u64> {
    let count = number_in(count).ok()?;
    let condition = condition_of(alloc, condition)?;
    if condition.speaks_of(Subject::Bucket) {
        return None;
    }
    held_on_row(alloc, count, &condition)
}

// What is to be done, and with how many bytes of stack.
#[derive(Clone, Copy)]
struct Task {
    shape: Shape,
    count: u32,
    work: Work,
    stack: u32,
}

// The task of words, if they are such words.
fn task_of(words: &[&str]) -> Option<Task> {
    let ["deep", shape, count, work, stack] = words else {
        return None;
    };
    Some(Task {
        shape: shape_of(shape)?,
        count: short_number_in(count).ok()?,
        work: work_of(work)?,
        stack: short_number_in(stack).ok()?,
    })
}

/// Prints how often a condition held, or what came of a deep one.
pub(crate) fn answer<T: Threads>(rt: HostRuntime, threads: &T, words: &[&str]) -> io::Result<()> {
    if let ["rate", count, condition @ ..] = words {
        return match held(rt.alloc(), count, condition) {
            Some(held) => println!(rt; "{held}"),
            None => println!(rt; "nothing"),
        };
    }
    let Some(task) = task_of(words) else {
        return println!(rt;
            "usage: eval rate COUNT CONDITION, or eval deep brackets|nots|chain|right|joins|calls COUNT read|evaluate STACK"
        );
    };
    let alloc = rt.alloc();
    let outcome = match thread::Builder::new().stack_size(task.stack as usize).spawn(
        threads,
        move || outcome_of(alloc, task.shape, task.count, task.work),
    ) {
        Ok(handle) => handle.join(threads),
        Err(_) => "no thread",
    };
    println!(rt; "{outcome}")
}
