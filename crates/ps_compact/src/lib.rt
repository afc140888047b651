//! Compaction of one bucket's log: operations that later ones make needless give up their content, and the log's front becomes
//! one CLEAR.
#![tactic(auto)]

mod compaction;
mod fronts;
mod laws;
mod reports;
mod targets;

pub use compaction::compact;
pub use laws::{
    compacted_logs_are_logs, compacted_logs_keep_readers_honest, compacted_logs_keep_sums,
    compacted_logs_stand, twice_is_once,
};
pub use reports::Report;
