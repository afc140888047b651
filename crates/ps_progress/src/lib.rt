//! How far a download is: counted from the lines of its stream, and told in one line of a terminal.
#![tactic(auto)]

mod downloads;
mod laws;
mod meters;
mod nowhere;

pub use downloads::Download;
pub use laws::meters_that_are_off_tell_nothing;
pub use meters::Meter;
pub use nowhere::Nowhere;
