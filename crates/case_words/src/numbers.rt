//! Numbers in decimal digits.

use crate::Stop;

/// A number of 64 bits.
pub fn number_in(word: &str) -> Result<u64, Stop> {
    Ok(word.parse::<u64>()?)
}

/// A number of 32 bits.
pub fn short_number_in(word: &str) -> Result<u32, Stop> {
    Ok(word.parse::<u32>()?)
}

/// A number of 64 bits with a sign.
pub fn signed_number_in(word: &str) -> Result<i64, Stop> {
    Ok(word.parse::<i64>()?)
}

/// A size of memory.
pub fn size_in(word: &str) -> Result<usize, Stop> {
    Ok(word.parse::<usize>()?)
}
