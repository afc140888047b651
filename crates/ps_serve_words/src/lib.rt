//! The words of the command `serve`: a command of clap, and what its matches say.
#![tactic(auto)]

mod arguments;
mod commands;
mod faults;
mod matches;
mod reading;
mod words;

pub use faults::WordsFault;
pub use reading::read_serve_words;
pub use words::ServeWords;
