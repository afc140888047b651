//! Lines of files: where each ends, and which are blank.
#![tactic(auto)]

mod cuts;
mod lines;

pub use cuts::cut;
pub use lines::{is_blank, split_line};
