//! The bytes of a word.

use case_words::Stop;
use std::alloc::Global;

/// The bytes that hexadecimal digits spell, two for each; none for `-`.
pub fn bytes(alloc: Global, digits: &str) -> Result<Vec<u8>, Stop> {
    if digits == "-" {
        return Ok(Vec::new(alloc));
    }
    match hex::decode(alloc, digits) {
        Ok(bytes) => Ok(bytes),
        Err(_) => Err("no digits".into()),
    }
}
