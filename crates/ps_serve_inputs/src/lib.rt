//! What `serve` reads before it serves: its rules, those that come next, its keys and its transactions; and what is said of its faults.
#![tactic(auto)]

mod faults;
mod inputs;
mod saying;

pub use faults::ServeFault;
pub use inputs::{Inputs, load_inputs};
pub use saying::say_serve;
