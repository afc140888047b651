//! How a text is written in a line: `~n` is a line feed, `~r` a carriage return, `~t` a tab, `~s` a space, `~f` the byte
//! 255, which is in no UTF-8 text, and `~*COUNT{PART}` so many times PART, which has no `}`.

use crate::short_number_in;
use ps_data::Memory;
use std::alloc::Global;

/// The bytes that a text stands for.
pub fn unescaped(alloc: Global, text: &str) -> Result<Vec<u8>, Memory> {
    let mut bytes = Vec::new(alloc);
    'parts: for (place, part) in text.split('~').enumerate() {
        if place == 0 {
            bytes.extend_from_slice(part.as_bytes())?;
        } else {
            push_part(&mut bytes, part)?;
        }
    }
    Ok(bytes)
}

// What stands behind one `~`, up to the next.
fn push_part(bytes: &mut Vec<u8>, part: &str) -> Result<(), Memory> {
    match part.as_bytes() {
        [b'n', rest @ ..] => push_both(bytes, b'\n', rest),
        [b'r', rest @ ..] => push_both(bytes, b'\r', rest),
        [b't', rest @ ..] => push_both(bytes, b'\t', rest),
        [b's', rest @ ..] => push_both(bytes, b' ', rest),
        [b'f', rest @ ..] => push_both(bytes, 255, rest),
        _ => push_repeated(bytes, part),
    }
}

fn push_both(bytes: &mut Vec<u8>, first: u8, rest: &[u8]) -> Result<(), Memory> {
    bytes.push(first)?;
    Ok(bytes.extend_from_slice(rest)?)
}

fn push_repeated(bytes: &mut Vec<u8>, part: &str) -> Result<(), Memory> {
    let Some((count, part)) = part.split_once('{') else {
        return Ok(());
    };
    let (part, rest) = part.split_once('}').unwrap_or((part, ""));
    let count = count.strip_prefix('*').unwrap_or(count);
    'times: for _ in 0..short_number_in(count).unwrap_or(0) {
        bytes.extend_from_slice(part.as_bytes())?;
    }
    Ok(bytes.extend_from_slice(rest.as_bytes())?)
}

/// Adds a text to a line.
pub fn push_escaped(out: &mut String, text: &str) -> Result<(), Memory> {
    'letters: for letter in text.chars() {
        match letter {
            '\n' => out.push_str("~n")?,
            '\r' => out.push_str("~r")?,
            '\t' => out.push_str("~t")?,
            _ => out.push(letter)?,
        }
    }
    Ok(())
}
