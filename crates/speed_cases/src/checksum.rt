//! Takes checksums of one content again and again, for `bench/checksum` to time: `put SIZE COUNT` by `put_sum`,
//! `sha2 SIZE COUNT` by `sha2` alone. Prints their sum.

use case_words::{number_in, short_number_in};
use ps_checksum::{Sum, add, put_sum};
use ps_data::Text;
use sha2::{Digest, Sha256};
use std::alloc::Global;
use std::io;

// The sum of as many checksums of a PUT with this content.
fn sum_of_puts(content: &Text, alloc: Global, count: u64) -> Option<Sum> {
    let kind = Text::from_str(alloc, "items").ok()?;
    let id = Text::from_str(alloc, "row").ok()?;
    let mut total = Sum(0);
    'puts: for _ in 0..count {
        total = add(total, put_sum(&kind, &id, content));
    }
    Some(total)
}

// The sum of as many digests of the content, the first four bytes of each taken.
fn sum_of_digests(content: &Text, count: u64) -> Sum {
    let mut total = Sum(0);
    'digests: for _ in 0..count {
        let digest = Sha256::digest(content.bytes());
        total = add(
            total,
            Sum(u32::from_le_bytes([digest[0], digest[1], digest[2], digest[3]])),
        );
    }
    total
}

// The sum that the words ask for, if they are such words and there is memory.
fn sum_for(alloc: Global, work: &str, size: &str, count: &str) -> Option<Sum> {
    let size = short_number_in(size).ok()?;
    let count = number_in(count).ok()?;
    let bytes = vec![in alloc; b'a'; size as usize].ok()?;
    let content = Text::from_bytes(alloc, bytes.as_slice()).ok()?;
    match work {
        "put" => sum_of_puts(&content, alloc, count),
        "sha2" => Some(sum_of_digests(&content, count)),
        _ => None,
    }
}

/// Prints the sum that the words ask for.
pub(crate) fn answer(rt: HostRuntime, words: &[&str]) -> io::Result<()> {
    let [work, size, count] = words else {
        return println!(rt; "usage: checksum put|sha2 SIZE COUNT");
    };
    match sum_for(rt.alloc(), work, size, count) {
        Some(sum) => println!(rt; "{}", sum.0),
        None => println!(rt; "no sum"),
    }
}
