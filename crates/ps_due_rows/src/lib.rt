//! The rows that are due to one asker of a file, of change lines or with a first copy: a store is fed, and a new client takes one whole
//! checkpoint of it, line by line.
#![tactic(auto)]

mod answering;
mod feedings;
mod filling;
mod handing;
mod loading;
mod starting;
mod syncing;
mod turning;

pub use feedings::Feeding;
pub use loading::load_rows;
pub use syncing::synced_rows;
