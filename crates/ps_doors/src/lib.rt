//! Where a service's connections come from and where a client makes them, and the bell of workers: what each of them promises, and each in memory.
#![tactic(auto)]

mod bells;
mod doors;
mod ends;
mod lent;
mod links;
mod memory_doors;
mod memory_links;
mod waiting;

pub use bells::{Bell, QuietBell};
pub use doors::Doors;
pub use ends::{Ends, Peer};
pub use lent::{Lent, take_back};
pub use links::Link;
pub use memory_doors::MemoryDoors;
pub use memory_links::MemoryLink;
