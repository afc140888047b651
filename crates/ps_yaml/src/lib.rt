//! The YAML of rules files, read exactly.
#![tactic(auto)]

mod entries;
mod faults;
mod lines;
mod nodes;
mod open;
mod rising;
mod scalars;
mod trees;

pub use faults::YamlFault;
pub use nodes::{Node, Pair};
pub use rising::places_rise;
pub use trees::read_yaml;
