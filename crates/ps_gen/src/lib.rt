//! Input that is made from a number, for measuring and for trying: rules of one definition, and any number of transactions.
#![tactic(auto)]

mod made;

pub use made::{make_input, make_rules};
