//! How bytes are spelled in a line: `\r` is a carriage return, `\n` a line feed, `\t` a tab, `\0` the byte 0, `\f` the byte 255,
//! which is in no UTF-8 text, and `\b` a backslash.

use ps_data::Memory;

// The byte that a letter behind a backslash stands for; one that stands for none is itself.
fn spelled(letter: u8) -> u8 {
    match letter {
        b'r' => b'\r',
        b'n' => b'\n',
        b't' => b'\t',
        b'0' => 0,
        b'f' => 255,
        b'b' => b'\\',
        _ => letter,
    }
}

/// Adds the bytes that a text spells.
pub fn push_spelled(text: &str, bytes: &mut Vec<u8>) -> Result<(), Memory> {
    let mut is_escaped = false;
    'bytes: for byte in text.as_bytes() {
        if is_escaped {
            bytes.push(spelled(*byte))?;
            is_escaped = false;
        } else if *byte == b'\\' {
            is_escaped = true;
        } else {
            bytes.push(*byte)?;
        }
    }
    Ok(())
}

fn push_byte(byte: u8, out: &mut String) -> Result<(), Memory> {
    match byte {
        b'\r' => out.push_str("\\r")?,
        b'\n' => out.push_str("\\n")?,
        b'\t' => out.push_str("\\t")?,
        0 => out.push_str("\\0")?,
        255 => out.push_str("\\f")?,
        b'\\' => out.push_str("\\b")?,
        _ => out.push(char::from(byte))?,
    }
    Ok(())
}

/// Writes bytes as they are spelled.
pub fn push_shown(bytes: &[u8], out: &mut String) -> Result<(), Memory> {
    'bytes: for byte in bytes {
        push_byte(*byte, out)?;
    }
    Ok(())
}
