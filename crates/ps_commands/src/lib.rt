//! The commands of the program, over files and sinks: docs/FORMATS.md has them, and docs/CLAIMS.md what is proved of them.
#![tactic(auto)]

mod auditing;
mod commands;
mod endings;
mod generating;
mod plain;
mod replay_faults;
mod replaying;
mod scripts;

pub use plain::run_plain;
