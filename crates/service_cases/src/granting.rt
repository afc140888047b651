//! What rules grant, from the definitions alone.

use crate::reading::{asker_of, transactions_of};
use crate::texts::Texts;
use case_stores::rules_of;
use case_words::{Stop, cut, number_in};
use ps_data::{Items, Memory, Position};
use ps_definitions::Rules;
use ps_grant::{Granted, SourceRows, grants_of, rows_of, source_at};
use ps_rows::{Shown, Transaction};
use ps_sql_eval::Asker;
use ps_values::quoted;
use std::alloc::Global;

// The source that a change file has at a position.
fn source_of(alloc: Global, changes: &str, position: u64) -> Result<SourceRows, Stop> {
    let all = transactions_of(alloc, changes)?;
    Ok(source_at(alloc, all.as_slice(), Position(position))?)
}

// The copies that rules grant to an asker.
fn copies_of(
    alloc: Global,
    rules: &str,
    asker: &Asker,
    source: &SourceRows,
) -> Result<Items<Granted>, Stop> {
    let rules = rules_of(alloc, rules)?;
    Ok(grants_of(alloc, &rules, asker, source)?)
}

// The copies that rules grant to a user with parameters.
fn granted_to(
    alloc: Global,
    rules: &str,
    source: &SourceRows,
    user: &str,
    parameters: &str,
) -> Result<Items<Granted>, Stop> {
    let asker = asker_of(alloc, user, parameters)?;
    copies_of(alloc, rules, &asker, source)
}

// The copies that the rules of the first words grant to an asker: RULES CHANGES USER PARAMETERS POSITION.
fn granted(alloc: Global, texts: &Texts, words: &str) -> Result<Items<Granted>, Stop> {
    let (rules, words) = cut(words);
    let (changes, words) = cut(words);
    let (user, words) = cut(words);
    let (parameters, position) = cut(words);
    let source = source_of(alloc, texts.text(changes)?, number_in(position)?)?;
    granted_to(alloc, texts.text(rules)?, &source, user, parameters)
}

fn write_row(out: &mut String, row: &Shown) -> Result<(), Stop> {
    let (kind, id) = (row.kind.as_str(), row.id.as_str());
    write!(out, "\n{kind} {id} ")?;
    Ok(out.push_str(row.content.as_str())?)
}

/// The rows that are due.
pub fn write_due(alloc: Global, texts: &Texts, words: &str, out: &mut String) -> Result<(), Stop> {
    let granted = granted(alloc, texts, words)?;
    let rows = rows_of(alloc, granted.as_slice())?;
    out.push_str("due")?;
    'rows: for row in rows.as_slice() {
        write_row(out, row)?;
    }
    Ok(())
}

fn write_copy(out: &mut String, copy: &Granted) -> Result<(), Stop> {
    let (kind, id) = (copy.kind.as_str(), copy.id.as_str());
    write!(out, "\n{kind} {id}")?;
    let (position, index, number) = (copy.position.0, copy.index, copy.number);
    Ok(write!(out, " {position} {index} {number}")?)
}

/// The copies that are granted, each with its moment and the number of its query.
pub fn write_copies(
    alloc: Global,
    texts: &Texts,
    words: &str,
    out: &mut String,
) -> Result<(), Stop> {
    let granted = granted(alloc, texts, words)?;
    out.push_str("copies")?;
    'copies: for copy in granted.as_slice() {
        write_copy(out, copy)?;
    }
    Ok(())
}

// Adds the line of a row.
fn push_row(alloc: Global, text: &mut String, row: &Shown) -> Result<(), Memory> {
    let (kind, id) = (quoted(alloc, &row.kind)?, quoted(alloc, &row.id)?);
    let content = row.content.as_str();
    Ok(write!(text, "{} {} {content}\n", kind.as_str(), id.as_str())?)
}

// The lines of the rows that are due of copies.
fn text_of(alloc: Global, copies: &[Granted]) -> Result<String, Memory> {
    let rows = rows_of(alloc, copies)?;
    let mut text = String::new(alloc);
    'rows: for row in rows.as_slice() {
        push_row(alloc, &mut text, row)?;
    }
    Ok(text)
}

/// The lines of the rows that are due over all transactions.
pub fn due_text(
    alloc: Global,
    rules: &Rules,
    asker: &Asker,
    transactions: &[Transaction],
) -> Result<String, Memory> {
    let source = source_at(alloc, transactions, Position(18446744073709551615))?;
    let copies = grants_of(alloc, rules, asker, &source)?;
    text_of(alloc, copies.as_slice())
}
