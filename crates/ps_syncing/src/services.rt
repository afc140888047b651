//! The service that a client asks.

use ps_data::{Items, Text};

/// The service that a client asks, and who it is there.
#[derive(Debug, Drop)]
pub struct Service {
    /// Its address, a host and a port.
    pub address: Text,
    /// The token that each request has.
    pub token: Items<u8>,
    /// The client's own id.
    pub client: Text,
}
