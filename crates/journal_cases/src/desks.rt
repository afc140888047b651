//! A disk in memory, and the words that change it.
ghost use Rattle.std.specs.Prelude.{IfOk, IfSome};
ghost use Rattle.ps_journal.specs.Records.{IsRecord};

use crate::shown::{push_fault, push_records};
use case_words::{Stop, cut, number_in, push_shown, push_spelled};
use ps_data::{Items, Text};
use ps_journal::{AppendFault, Disk, Disks, Journal, MemoryDisk, MemoryDisks, Record, run_once};
use std::alloc::Global;

/// A disk alone, or with a journal over it.
#[derive(Drop)]
pub enum Desk {
    Bare(MemoryDisk),
    Kept(Journal<MemoryDisk>),
}

/// The numbers of the calls that are to fail.
pub fn failing_in(alloc: Global, word: &str) -> Result<Items<u64>, Stop> {
    let mut failing = Vec::new(alloc);
    if word != "-" {
        'numbers: for number in word.split(',') {
            failing.push(number_in(number)?)?;
        }
    }
    Ok(Items::from_vec(failing))
}

// The bytes, with another byte in place of one.
fn with_byte(alloc: Global, bytes: &[u8], from: u8, into: u8) -> Result<Vec<u8>, Stop> {
    let mut made = Vec::new(alloc);
    'bytes: for byte in bytes {
        made.push(if *byte == from { into } else { *byte })?;
    }
    Ok(made)
}

/// The bytes that a word spells; `@` is the byte 1, and `^` is 7.
pub fn content_in(alloc: Global, word: &str) -> Result<Vec<u8>, Stop> {
    let mut content = Vec::new(alloc);
    if word != "-" {
        push_spelled(word, &mut content)?;
    }
    let content = with_byte(alloc, &content, b'@', 1)?;
    with_byte(alloc, &content, b'^', 7)
}

fn push_content(alloc: Global, content: &[u8], out: &mut String) -> Result<(), Stop> {
    let shown = with_byte(alloc, content, 1, b'@')?;
    let shown = with_byte(alloc, &shown, 7, b'^')?;
    Ok(push_shown(&shown, out)?)
}

fn body_of(alloc: Global, before: &str, number: &str, behind: &str) -> Result<String, Stop> {
    let mut body = String::from_str(alloc, before)?;
    body.push_str(number)?;
    body.push_str(behind)?;
    Ok(body)
}

// The body of the record that a word stands for.
fn body_in(alloc: Global, word: &str) -> Result<String, Stop> {
    if let Some(number) = word.strip_prefix("u") {
        return body_of(
            alloc,
            r#"{"upload":{"changes":[],"pos":""#,
            number,
            r#""}}"#,
        );
    }
    if let Some(number) = word.strip_prefix("n") {
        let head = body_of(
            alloc,
            r#"{"number":{"client":"c","head":""#,
            number,
            r#"","number":""#,
        )?;
        return body_of(alloc, head.as_str(), number, r#"","user":"u"}}"#);
    }
    Ok(String::from_str(alloc, word)?)
}

/// The record that a word stands for.
pub fn record_in(alloc: Global, word: &str) -> Result<Option<Record>, Stop>
    ensures { IfOk result (λ found. IfSome found IsRecord) }
{
    let body = body_in(alloc, word)?;
    Ok(Record::read(alloc, body.as_bytes())?)
}

fn push_refusal(out: &mut String, fault: AppendFault) -> Result<(), Stop> {
    match fault {
        AppendFault::KeepFull { bytes } => write!(out, "full:{bytes}")?,
        AppendFault::KeepFailed => out.push_str("failed")?,
        AppendFault::Memory => out.push_str("memory")?,
    }
    Ok(())
}

/// Appends a record, and takes it back where it is to be taken back.
pub fn append<D: Disk>(
    alloc: Global,
    journal: &mut Journal<D>,
    word: &str,
    out: &mut String,
) -> Result<(), Stop> {
    let Some(record) = record_in(alloc, word.strip_prefix("~").unwrap_or(word))? else {
        return Ok(out.push_str("no-record")?);
    };
    match journal.append(alloc, &record) {
        Ok(()) => {
            if word.starts_with("~") {
                journal.take_back();
            }
            Ok(out.push_str("ok")?)
        }
        Err(fault) => push_refusal(out, fault),
    }
}

fn open(alloc: Global, disk: MemoryDisk, out: &mut String) -> Result<Desk, Stop> {
    match Journal::open(alloc, disk) {
        Ok((journal, records)) => {
            push_records(out, &records)?;
            Ok(Desk::Kept(journal))
        }
        Err((disk, fault)) => {
            push_fault(out, fault)?;
            Ok(Desk::Bare(disk))
        }
    }
}

// Opens, appends and closes.
fn append_once(
    alloc: Global,
    disk: MemoryDisk,
    word: &str,
    out: &mut String,
) -> Result<Desk, Stop> {
    let Some(record) = record_in(alloc, word)? else {
        return Err("no record".into());
    };
    let (disk, kept) = run_once(alloc, disk, &record);
    out.push_str(if kept { "kept" } else { "not-kept" })?;
    Ok(Desk::Bare(disk))
}

// What a word does to a disk that is not opened.
fn step_bare(alloc: Global, disk: MemoryDisk, word: &str, out: &mut String) -> Result<Desk, Stop> {
    if let Some(word) = word.strip_prefix("once:") {
        return append_once(alloc, disk, word, out);
    }
    match word {
        "open" => open(alloc, disk, out),
        "bytes" => {
            push_content(alloc, disk.told().content.as_slice(), out)?;
            Ok(Desk::Bare(disk))
        }
        _ => {
            out.push_str("closed")?;
            Ok(Desk::Bare(disk))
        }
    }
}

// What a word does to a journal.
fn step_kept(
    alloc: Global,
    journal: Journal<MemoryDisk>,
    word: &str,
    out: &mut String,
) -> Result<Desk, Stop> {
    if word == "close" {
        out.push_str("closed")?;
        return Ok(Desk::Bare(journal.close()));
    }
    let mut journal = journal;
    append(alloc, &mut journal, word, out)?;
    Ok(Desk::Kept(journal))
}

fn step(alloc: Global, desk: Desk, word: &str, out: &mut String) -> Result<Desk, Stop> {
    match desk {
        Desk::Bare(disk) => step_bare(alloc, disk, word, out),
        Desk::Kept(journal) => step_kept(alloc, journal, word, out),
    }
}

/// Does the words on a disk, and gives it back.
pub fn play(
    alloc: Global,
    disk: MemoryDisk,
    words: &str,
    out: &mut String,
) -> Result<MemoryDisk, Stop> {
    let mut desk = Desk::Bare(disk);
    'words: for (place, word) in words.split(' ').enumerate() {
        if place > 0 {
            out.push(' ')?;
        }
        desk = step(alloc, desk, word, out)?;
    }
    match desk {
        Desk::Bare(disk) => Ok(disk),
        Desk::Kept(journal) => Ok(journal.close()),
    }
}

/// Answers `run`.
pub fn run(alloc: Global, line: &str, out: &mut String) -> Result<(), Stop> {
    let (failing, rest) = cut(line);
    let (content, words) = cut(rest);
    let content = Items::from_vec(content_in(alloc, content)?);
    let disk = MemoryDisk::new(alloc, content, failing_in(alloc, failing)?)?;
    let _disk = play(alloc, disk, words, out)?;
    Ok(())
}

// Opens a journal on a disk, and closes it.
fn open_once(alloc: Global, disk: MemoryDisk) -> MemoryDisk {
    match Journal::open(alloc, disk) {
        Ok((journal, _records)) => journal.close(),
        Err((disk, _fault)) => disk,
    }
}

fn visit<M: Disks<D = MemoryDisk>>(
    alloc: Global,
    disks: &mut M,
    name: &Text,
    out: &mut String,
) -> Result<(), Stop> {
    let Ok(disk) = disks.open(name) else {
        return Ok(out.push_str("failed")?);
    };
    let again = disks.open(name).is_ok();
    let before = disks.open_faults();
    disks.close(open_once(alloc, disk));
    let after = disks.open_faults();
    Ok(write!(out, "again {again} {before}, closed {after}")?)
}

/// Answers `disks`.
pub fn write_disks(alloc: Global, word: &str, out: &mut String) -> Result<(), Stop> {
    let disk = MemoryDisk::new(alloc, Items::new(alloc), failing_in(alloc, word)?)?;
    let mut disks = MemoryDisks::new(disk);
    let name = Text::from_str(alloc, "any")?;
    visit(alloc, &mut disks, &name, out)?;
    out.push_str("; ")?;
    visit(alloc, &mut disks, &name, out)
}
