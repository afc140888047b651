//! Cases of the upper crates, over texts. `text NAME` begins a text, and lines that begin with `|`, `>`, `*` or `+` add to it (`Texts::add`).
//! A line that begins with `-` is printed as it stands. Each other line is a case, by one of the words of `answer_command` and `answer_part`.

use crate::texts::Texts;
use crate::{chance, commands, granting, lines, lookups, placing, storing};
use case_words::{Stop, cut};
use std::alloc::Global;

// Cases of commands; false where the word begins none.
fn answer_command(
    alloc: Global,
    texts: &Texts,
    word: &str,
    rest: &str,
    out: &mut String,
) -> Result<bool, Stop> {
    let answered = match word {
        "run" => commands::write_run(alloc, texts, rest, out),
        "count" => commands::write_count(alloc, texts, rest, out),
        "unread" => commands::write_unread(alloc, texts, rest, out),
        "unwritten" => commands::write_unwritten(alloc, texts, rest, out),
        "chance" => chance::write_tries(alloc, rest, out),
        _ => return Ok(false),
    };
    answered?;
    Ok(true)
}

// Cases of the crates below.
fn answer_part(
    alloc: Global,
    texts: &Texts,
    word: &str,
    rest: &str,
    out: &mut String,
) -> Result<bool, Stop> {
    let answered = match word {
        "entries" => placing::write_entries(alloc, texts, rest, out),
        "wide" => placing::write_wide(alloc, texts, rest, out),
        "name" => placing::write_name(alloc, rest, out),
        "memory" => placing::write_memory(out),
        "due" => granting::write_due(alloc, texts, rest, out),
        "copies" => granting::write_copies(alloc, texts, rest, out),
        "names" => lookups::write_names(alloc, texts, rest, out),
        "written" => storing::write_written(alloc, texts, rest, out),
        "at-once" => storing::write_at_once(alloc, texts, rest, out),
        "lines" => lines::write_lines(alloc, texts, rest, out),
        "line-end" => lines::write_line_end(alloc, texts, rest, out),
        "sent" => lines::write_sent(alloc, texts, rest, out),
        _ => return Ok(false),
    };
    answered?;
    Ok(true)
}

// Answers a line, or takes what it adds to a text. Lines that begin with `-` say what follows.
fn answer(alloc: Global, texts: &mut Texts, line: &str, out: &mut String) -> Result<(), Stop> {
    if line.is_empty() || texts.add(line)? {
        return Ok(());
    }
    let (word, rest) = cut(line);
    if word == "text" {
        return texts.begin(alloc, rest);
    }
    if word == "-" {
        return Ok(write!(out, "{line}\n")?);
    }
    if answer_command(alloc, texts, word, rest, out)?
        || answer_part(alloc, texts, word, rest, out)?
    {
        Ok(out.push_str("\n")?)
    } else {
        Err("no such case".into())
    }
}

/// Answers the cases.
pub fn answer_all(rt: &HostRuntime, cases: &str) -> Result<(), Stop> {
    let mut texts = Texts::new(rt.alloc());
    'lines: for line in cases.lines() {
        let mut out = String::new(rt.alloc());
        answer(rt.alloc(), &mut texts, line, &mut out)?;
        print!(rt; "{}", out.as_str())?;
    }
    Ok(())
}
