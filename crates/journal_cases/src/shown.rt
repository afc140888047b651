//! Records and answers, as they are printed.

use case_words::Stop;
use ps_data::{Items, Memory};
use ps_journal::{Journal, MemoryDisk, OpenFault, Record};
use std::alloc::Global;

fn push_record(out: &mut String, record: &Record) -> Result<(), Memory> {
    match record {
        Record::Upload { position, changes } => {
            let changes = changes.as_slice().len();
            write!(out, "u{}", position.0)?;
            if changes > 0 {
                write!(out, "({changes})")?;
            }
            Ok(())
        }
        Record::Number {
            user,
            client,
            number,
            head,
        } => Ok(write!(
            out,
            "n{number}({},{},{})",
            user.as_str(),
            client.as_str(),
            head.0
        )?),
    }
}

/// The records with a `+` between them, or `none`.
pub fn push_records(out: &mut String, records: &[Record]) -> Result<(), Memory> {
    if records.is_empty() {
        return Ok(out.push_str("none")?);
    }
    'records: for (place, record) in records.iter().enumerate() {
        if place > 0 {
            out.push('+')?;
        }
        push_record(out, record)?;
    }
    Ok(())
}

/// Why a journal was not opened.
pub fn push_fault(out: &mut String, fault: OpenFault) -> Result<(), Memory> {
    match fault {
        OpenFault::NotJournal => out.push_str("not-journal")?,
        OpenFault::Damaged { at } => write!(out, "damaged@{at}")?,
        OpenFault::TooLong { seen } => write!(out, "too-long:{seen}")?,
        OpenFault::Failed => out.push_str("failed")?,
        OpenFault::Memory => out.push_str("memory")?,
    }
    Ok(())
}

/// What opening a disk with these bytes answers.
pub fn opened(alloc: Global, content: &[u8]) -> Result<String, Stop> {
    let content = Items::from_vec(Vec::from_slice(alloc, content)?);
    let disk = MemoryDisk::new(alloc, content, Items::new(alloc))?;
    let mut answer = String::new(alloc);
    match Journal::open(alloc, disk) {
        Ok((_journal, records)) => push_records(&mut answer, &records)?,
        Err((_disk, fault)) => push_fault(&mut answer, fault)?,
    }
    Ok(answer)
}
