//! Checksums of operations: 32-bit numbers from SHA-256 that add up modulo 2^32.
#![tactic(auto)]

mod sums;

pub use sums::{Sum, add, first_four, put_sum, remove_sum, sums_are_a_commutative_group};
