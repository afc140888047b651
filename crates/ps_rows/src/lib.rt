//! Rows of the source and their changes, as data; the source as a fold of changes; rows as a client shows them.
#![tactic(auto)]

mod changes;
mod rows;
mod shown;

pub use changes::{Change, Transaction};
pub use rows::Row;
pub use shown::Shown;
