//! A client's storage in a database: what edits make of the state that is kept, written as the rows that change, in one transaction.
#![tactic(auto)]

mod copies;
mod differences;
mod differing;
mod editing;
mod faults;
mod keeper;
mod numbering;
mod opening;
mod reading;
mod writes;
mod writing;

pub use differences::difference;
pub use editing::after_edits;
pub use faults::{StoreFault, refused};
pub use keeper::SqliteKeeper;
pub use numbering::pushed;
pub use opening::with_tables;
pub use reading::read_state;
pub use writes::RowWrite;
pub use writing::write_all;
