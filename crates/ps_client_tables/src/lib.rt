//! The tables of a client's storage in a database, and the texts that make, write and read them, each in a function of
//! its own. Contracts see a table as its rows: a rowid, and then the columns.
#![tactic(auto)]

mod aim;
mod buckets;
mod entries;
mod making;
mod opening;
mod queue;
mod running;
mod schemas;
mod shown;

pub use aim::{put_aim, read_aim};
pub use buckets::{drop_bucket, put_bucket, read_buckets};
pub use entries::{drop_entry, put_entry, read_entries};
pub use making::make_tables;
pub use opening::open_anew;
pub use queue::{drop_queued, put_queued, read_queue};
pub use schemas::{Found, found_schema};
pub use shown::{drop_shown, put_shown, read_shown};
