//! A client's storage in a file: how it is opened and closed, and what is said where it is refused.
#![tactic(auto)]

mod files;
mod saying;

pub use files::{FileKeeper, close_store, open_store};
pub use saying::store_status;
