//! The words of a line.

use case_words::{Stop, number_in};
use std::alloc::Global;

/// The numbers between commas; none for `-`.
pub fn numbers(alloc: Global, word: &str) -> Result<Vec<u64>, Stop> {
    let mut all = Vec::new(alloc);
    if word == "-" {
        return Ok(all);
    }
    'numbers: for one in word.split(',') {
        all.push(number_in(one)?)?;
    }
    Ok(all)
}

/// The bytes that hexadecimal digits spell, two for each.
pub fn bytes(alloc: Global, digits: &str) -> Result<Vec<u8>, Stop> {
    let mut all = Vec::new(alloc);
    let mut before = None;
    'digits: for digit in digits.chars() {
        let digit = digit.to_digit(16).ok_or("no digit")?;
        match before.take() {
            None => before = Some(digit),
            Some(high) => {
                let byte = u32::wrapping_add(u32::wrapping_mul(high, 16), digit);
                all.push(u8::try_from(byte)?)?;
            }
        }
    }
    Ok(all)
}
