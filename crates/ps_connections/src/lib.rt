//! The connections of a service: each is answered in a thread of its own, over the one lock of the service's store.
#![tactic(auto)]

mod closing;
mod ended;
mod hearing;
mod services;
mod serving;
mod starting;
mod taking;
mod works;

pub use ended::{Ended, Stop};
pub use hearing::Hears;
pub use services::Service;
pub use serving::serve_connections;
