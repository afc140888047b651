//! Two values that `ps_lock` may keep, and calls that take turns at them: a counter, which several threads share, and a diary, whose entries own memory.
//! `worker_cases` runs them.
#![tactic(auto)]

mod counters;
mod diaries;

pub use counters::{Counter, add, add_by_four, added_by_two, refreshed};
pub use diaries::{Diary, Event, note, remark};
