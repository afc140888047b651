//! Claims files: who asks.
#![tactic(auto)]

mod claims;

pub use claims::read_claims;
