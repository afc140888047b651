//! The rows of what a client keeps: the rows of each table that a state has, the state that rows are, and the state that edits make.
#![tactic(auto)]

mod cells;
mod drafts;
mod faults;
mod images;
mod lines;
mod reading;
mod rows;
mod seen;
mod tables;
mod telling;

pub use cells::Cell;
pub use drafts::edited;
pub use faults::RowsFault;
pub use lines::{BucketLine, Queued};
pub use rows::Rows;
pub use telling::state_in;
