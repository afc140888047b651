//! The sockets of the system as doors and links, and the bell of workers that are threads. What passes through them is not told.
#![tactic(auto)]

mod accepting;
mod bells;
mod doors;
mod links;
mod patience;
mod sinks;
mod sources;

pub use bells::{Rings, RungBell};
pub use doors::TcpDoors;
pub use links::TcpLink;
pub use sinks::TcpSink;
pub use sources::TcpSource;
